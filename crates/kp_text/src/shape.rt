ghost use Rattle.std.specs.Prelude.{◌≡◌, slice_get};
ghost use Rattle.std.specs.Option.{option_map};
ghost use Rattle.kp_text.specs.Words.{words_of as words_in};
ghost use Rattle.kp_text.specs.Shape.{are_written, takes_list as list_taken_by, is_raw as named_raw, is_of_list, have_list, may_be_line};

/// The most words of a line whose command takes no list: as many as `raw S EPOCH SEQ set PATH DATA VERSION` has.
const FEW: usize = 8;

/// Whether a text may be a line, as far as this shows without memory: no word is empty, and only a command that takes
/// a list has more than a few words. So no memory is taken for the words of a text that is none.
pub fn may_be_a_line(line: &str) -> bool
    ensures { result ≡ may_be_line (words_in line.now) }
{
    (has_list(line) || word_at(line, FEW).is_none()) && has_no_empty_word(line)
}

/// A word of a line, counted from 0.
fn word_at(line: &str, at: usize) -> Option<&str>
    ensures { option_map (λ w. w.now) result ≡ slice_get (words_in line.now) at }
{
    line.split(' ').nth(at)
}

fn has_no_empty_word(line: &str) -> bool
    ensures { result ≡ are_written (words_in line.now) }
{
    line.split(' ').all(|word| !word.is_empty())
}

/// Whether the command of a line takes a list. Its name is the first word, and the fifth of a `raw` line.
fn has_list(line: &str) -> bool
    ensures { result ≡ have_list (words_in line.now) }
{
    if is_raw(line) {
        takes_list_at(line, 4)
    } else {
        takes_list_at(line, 0)
    }
}

fn is_raw(line: &str) -> bool
    ensures { result ≡ named_raw (slice_get (words_in line.now) 0) }
{
    match word_at(line, 0) {
        Some(name) => name == "raw",
        None => false,
    }
}

/// Whether a word of a line, counted from 0, names a command that takes a list.
fn takes_list_at(line: &str, at: usize) -> bool
    ensures { result ≡ is_of_list (slice_get (words_in line.now) at) }
{
    match word_at(line, at) {
        Some(name) => takes_list(name),
        None => false,
    }
}

/// Whether a command of this name takes a list of access rules or of operations, and so any number of words.
fn takes_list(name: &str) -> bool
    ensures { result ≡ list_taken_by name.now }
{
    name == "create" || (name == "setacl" || name == "multi")
}
