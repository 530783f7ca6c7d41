// Reads a sheet as text from standard input and prints its last layer, or why it is refused: RULES 9.7.
// One byte more than a text may have is read, so that a longer one is known.
#![tactic(auto)]

fn main() {
    let mut text = [0u8; filter::Sheet::TEXT + 1];
    let n = io::read_full(0, &mut text);
    let mut out = [0u8; text_answer::LONGEST];
    let m = text_answer::answer(&text[..n], &mut out);
    io::write_all(1, &out[..m]);
}
