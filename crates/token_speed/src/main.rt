//! Counts the tokens of its input, to measure the speed of `next_token`.
#![tactic(auto)]

use std::io::{self, Read};
use std::process::ExitCode;
use term_lex::{TokenKind, next_token};

/// How many tokens stand in the text before its end or its first fault.
fn count(text: &[u8]) -> u64 {
    let mut at = 0;
    for tokens in 0..u64::MAX {
        match next_token(text, at) {
            Ok(token) if token.kind != TokenKind::End => at = token.to,
            _ => return tokens,
        }
    }
    u64::MAX
}

fn main(rt: HostRuntime) -> io::Result<()> {
    let mut text = Vec::new(rt.alloc());
    rt.stdin().lock().read_to_end(&mut text)?;
    println!(rt; "{}", count(&text))?;
    Ok(())
}
