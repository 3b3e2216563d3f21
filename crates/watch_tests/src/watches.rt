// The reports of watches, and a watch that runs out of memory.
ghost use Rattle.std.specs.Prelude.{ℕ, List, [], ◌∷◌, ◌++◌, ◌==◌, flat_map, decimal, codes, bytes_eq, if◌then◌else◌};

use eq_base::{NoMemory, push_numeral};
use eq_watch::{Event, Profile, Sizes, Trace, Watch, clear_each, named, report_each, tell};
use std::alloc::Global;
use std::process::Abort;
use std::test::Fail;

/// A watch that notes the last equation that was used, and may run out of memory at the second replacement.
#[derive(Drop)]
struct Last {
    equation: usize,
    runs_out: bool,
}

impl Watch for Last {
    ghost state = { λ w. record {
      numbers = if w.equation == 0 then [] else w.equation ∷ [];
      next = λ _ event. if event.equation == 0 then [] else event.equation ∷ [];
      text = flat_map (λ equation. codes "last " ++ decimal equation ++ codes "\n");
      is_name = bytes_eq (codes "last");
    } };

    fn name_is(&self, name: &str) -> bool {
        name == "last"
    }

    fn clear(&mut self) {
        self.equation = 0;
    }

    fn seen(&mut self, event: Event) -> Result<(), NoMemory> {
        if self.runs_out && event.number == 2 {
            return Err(NoMemory);
        }
        self.equation = event.equation;
        Ok(())
    }

    fn report(&self, into: &mut Vec<u8>) -> Result<(), NoMemory> {
        if self.equation == 0 {
            return Ok(());
        }
        into.extend_from_slice(b"last ")?;
        push_numeral(into, self.equation as i128)?;
        into.push(b'\n')?;
        Ok(())
    }
}

/// An event of these numbers, in the order of the fields.
fn event(number: u64, equation: usize, node: usize, first_made: usize, made: usize) -> Event {
    Event {
        number,
        equation,
        node,
        first_made,
        made,
    }
}

/// The replacements of `plus(s(s(z)), s(z))`.
fn sum_events() -> [Event; 3] {
    [
        event(1, 2, 0, 6, 1),
        event(2, 2, 6, 7, 1),
        event(3, 1, 7, 8, 0),
    ]
}

const TRACE: &str =
    "1 equation 2 node 0 made 1\n2 equation 2 node 6 made 1\n3 equation 1 node 7 made 0\n";

const PROFILE: &str = "equation 1 used 1\nequation 2 used 2\n";

/// The report of the watches that a name turns on, or `none` where it is no name of one.
fn report_of(
    alloc: Global,
    watches: &Vec<Box<dyn Watch>>,
    name: &str,
) -> Result<Vec<u8>, NoMemory> {
    let mut report = Vec::new(alloc);
    match named(alloc, watches, name)? {
        Some(on) => report_each(watches, &on, &mut report)?,
        None => report.extend_from_slice(b"none")?,
    }
    Ok(report)
}

#[test]
fn each_watch_reports(rt: HostRuntime) -> Result<(), Fail> {
    let alloc = rt.alloc();
    let mut watches: Vec<Box<dyn Watch>> = Vec::new(alloc);
    watches.push(Box::new(alloc, Trace::new(alloc))?)?;
    watches.push(Box::new(alloc, Profile::new(alloc))?)?;
    watches.push(Box::new(alloc, Sizes::new())?)?;
    let [first, second, third] = sum_events();
    let on = [true, true, true];
    tell(&mut watches, &on, first)?;
    tell(&mut watches, &on, second)?;
    tell(&mut watches, &on, third)?;
    let all = format!(in alloc; "{TRACE}{PROFILE}replaced 3 made 2 last 8\n")?;
    for (name, text) in [
        ("trace", TRACE),
        ("profile", PROFILE),
        ("sizes", "replaced 3 made 2 last 8\n"),
        ("all", all.as_str()),
        ("last", "none"),
    ] {
        let report = report_of(alloc, &watches, name)?;
        assert_eq!(rt; report.as_slice(), text.as_bytes(), "at {name}");
    }
    clear_each(&mut watches, &[false, true, true]);
    let cleared = report_of(alloc, &watches, "all")?;
    let left = format!(in alloc; "{TRACE}replaced 0 made 0 last 0\n")?;
    assert_eq!(rt; cleared.as_slice(), left.as_bytes());
    Ok(())
}

#[test]
fn a_watch_runs_out_of_memory(rt: HostRuntime) -> Result<(), Fail> {
    let alloc = rt.alloc();
    let mut watches: Vec<Box<dyn Watch>> = Vec::new(alloc);
    watches.push(Box::new(alloc, Sizes::new())?)?;
    watches.push(Box::new(
        alloc,
        Last {
            equation: 0,
            runs_out: true,
        },
    )?)?;
    watches.push(Box::new(alloc, Profile::new(alloc))?)?;
    let on = [true, true, true];
    tell(&mut watches, &on, event(1, 7, 0, 6, 1))?;
    assert!(rt; tell(&mut watches, &on, event(2, 9, 6, 7, 1)).is_err());
    let report = report_of(alloc, &watches, "all")?;
    let text = "replaced 2 made 2 last 8\nlast 7\nequation 7 used 1\n";
    assert_eq!(rt; report.as_slice(), text.as_bytes());
    Ok(())
}

#[test]
fn sums_stop(rt: HostRuntime) -> Result<(), Fail> {
    let alloc = rt.alloc();
    let mut watches: Vec<Box<dyn Watch>> = Vec::new(alloc);
    watches.push(Box::new(alloc, Sizes::new())?)?;
    watches.push(Box::new(
        alloc,
        Last {
            equation: 0,
            runs_out: false,
        },
    )?)?;
    let on = [true, false];
    tell(&mut watches, &on, event(1, 1, 0, 1, usize::MAX))?;
    tell(&mut watches, &on, event(2, 1, 0, usize::MAX, 2))?;
    let report = report_of(alloc, &watches, "all")?;
    let text = "replaced 2 made 18446744073709551615 last 18446744073709551615\n";
    assert_eq!(rt; report.as_slice(), text.as_bytes());
    Ok(())
}
