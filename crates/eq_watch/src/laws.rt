// Laws of watches.
ghost use Rattle.std.specs.Prelude.{◌≡◌, ◌++◌, Bool, List};
ghost use Rattle.eq_watch.specs.declared.event.Event.{Event};
ghost use Rattle.eq_watch.specs.Watching.{WatchState};
ghost use Rattle.eq_watch.specs.Telling.{told, ToldFronts};

/// Law: watches that are told of events, and then of more, are told of all of them; so too where memory ran
/// out.
pub fn told_in_parts()
    ensures whole { (on : List Bool) (events more : List Event) (all : List WatchState)
        → told on (events ++ more) all ≡ told on more (told on events all) }
    ensures front { (on : List Bool) (events more : List Event) (all new : List WatchState)
        → ToldFronts on more (told on events all) new → ToldFronts on (events ++ more) all new }
{}
