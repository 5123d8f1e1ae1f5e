// Runs the cases of the standard input through the public calls, a line for each (`case_lines`).
#![tactic(auto)]

// Bytes of the standard input, at most.
const INPUT: usize = 1048576;

fn answer_all(input: &[u8]) {
    let mut at: usize = 0;
    // Each case tells where the next begins.
    while at < input.len() {
        at = case_lines::answer_at(input, at);
    }
}

fn main() {
    let mut input = [0u8; INPUT];
    let n = io::read_full(0, &mut input);
    answer_all(&input[..n]);
}
