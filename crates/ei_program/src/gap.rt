// Blanks and comments, a piece at a time.
ghost use Rattle.std.specs.Prelude.{◌≡◌, ◌+◌, ◌<◌, ◌≤◌, ℕ, List, length, drop};
ghost use Rattle.term_lex.specs.Bytes.{is_blank};
ghost use Rattle.term_lex.specs.Gaps.{IsGap};
ghost use Rattle.term_lex.proofs.Gaps.{Passed};

/// How many bytes at the front are blank or in a comment, and whether a comment is open behind them, where
/// one may be open before them. Each of them is read once.
pub fn skipped(bytes: &[u8], in_comment: bool) -> (usize, bool)
    ensures within { result.0 ≤ length bytes.now }
    ensures passed { (text : List ℕ) (len : ℕ) → drop len text ≡ bytes.now
        → Passed text len in_comment → Passed text (len + result.0) result.1 }
    ensures ends { result.0 < length bytes.now → (text : List ℕ) (len : ℕ) → drop len text ≡ bytes.now
        → Passed text len in_comment → IsGap text (len + result.0) }
{
    let mut len = 0;
    let mut inside = in_comment;
    for byte in bytes {
        if inside {
            inside = *byte != b'\n';
        } else if *byte == b'%' {
            inside = true;
        } else if !is_blank(*byte) {
            break;
        }
        len += 1;
    }
    (len, inside)
}

/// Whether the byte is blank.
fn is_blank(byte: u8) -> bool
    ensures { result ≡ is_blank byte }
{
    matches!(byte, b'\t' | b'\n' | b'\r' | b' ')
}
