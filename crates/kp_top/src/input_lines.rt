ghost use Rattle.std.specs.Prelude.{◌≡◌, ◌<◌, length, [], ◌∷◌, MatchOption};
ghost use Rattle.std.specs.List.{position};
ghost use Rattle.kp_top.specs.InputLines.{is_feed, lines_of};

/// The first line of a text, without its line feed, and what comes behind it.
pub fn next_line(text: &[u8]) -> Option<(&[u8], &[u8])>
    ensures { MatchOption result (lines_of text.now ≡ []) (λ x. (lines_of text.now ≡ x.0.now ∷ lines_of x.1.now) × (length x.1.now < length text.now)) }
{
    if text.is_empty() {
        return None;
    }
    match first_feed(text) {
        Some(at) => Some((&text[..at], &text[at + 1..])),
        None => Some((text, &[])),
    }
}

fn first_feed(text: &[u8]) -> Option<usize>
    ensures { result ≡ position is_feed text.now }
{
    text.iter().position(|b| *b == b'\n')
}
