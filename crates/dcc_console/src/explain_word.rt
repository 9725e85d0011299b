//! The word `--explain`.

ghost use Rattle.std.specs.Prelude.{◌≡◌, ◌<◌, true, false, codes, length, remove, slice_get, string_bytes, IfSome, IfNone};
ghost use Rattle.dcc_console.specs.Words.{IsExplain};

/// The words of a command line without the first `--explain` that stands before a `--`, and whether there was one.
pub fn without_explain(words: Vec<String>) -> (Vec<String>, bool)
    ensures none { result.1 ≡ false → result.0.items ≡ words.items }
    ensures one { result.1 ≡ true → IsExplain string_bytes words.items result.0.items }
{
    let mut words = words;
    match place_of(words.as_slice()) {
        Some(at) => {
            let _word = words.remove(at);
            (words, true)
        }
        None => (words, false),
    }
}

/// The place of the first `--explain` before a `--`.
fn place_of(words: &[String]) -> Option<usize>
    ensures within { IfSome result (λ at. at < length words.now) }
    ensures named { IfSome result (λ at. IfSome (slice_get words.now at) (λ word. string_bytes word ≡ codes "--explain")) }
{
    for at in 0..words.len() {
        if is_word(words, at, "--") {
            return None;
        }
        if is_word(words, at, "--explain") {
            return Some(at);
        }
    }
    None
}

/// Whether a word at a place is this one.
fn is_word(words: &[String], at: usize, text: &str) -> bool
    requires { at < length words.now }
    ensures { result ≡ true → IfSome (slice_get words.now at) (λ word. string_bytes word ≡ text.now) }
{
    words[at].as_str() == text
}
