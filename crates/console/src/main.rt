// One box at a keyboard or at the end of a pipe: reads lines, and answers each at once.
#![tactic(auto)]

mod calls;

use arrayvec::ArrayVec;
use console_lines::lines;
use console_lines::lines::Held;

// What a line's answer is, in one write where it fits. Whether it was written; if not, the program says so and ends.
fn written(page: &[u8]) -> bool {
    if io::write_all(1, page) {
        return true;
    }
    io::write_all(2, b"console: standard output cannot be written\n");
    false
}

// The turns are counted, to a number that no run uses up: a proved loop has to end.
fn main(rt: HostRuntime) {
    let input = rt.stdin();
    let mut space = [0u8; 8192];
    let mut page: ArrayVec<u8, { calls::ROOM }> = ArrayVec::new();
    let mut bench = calls::new_bench();
    let mut held = Held { from: 0, to: 0 };
    for _ in 0..u64::MAX {
        let next = lines::next_line(input, &mut space, held);
        held = next.held;
        let after = calls::take(bench, next.line, &space, &mut page);
        if !written(page.as_slice()) {
            return;
        }
        let Some(after) = after else {
            return;
        };
        bench = after;
    }
}
