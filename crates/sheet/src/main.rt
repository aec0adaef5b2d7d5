// The recovery sheet: reads standard input, prints what the sheet says, and says on standard error why a sheet is bad.
#![tactic(auto)]

use arrayvec::ArrayVec;
use sheet_reasons::words::PAGE;

// One byte more than a sheet may have tells that the input is too long; what is behind it is not read.
fn main() {
    let mut input = [0u8; sheet_form::BYTES + 1];
    let n = io::read_full(0, &mut input);
    let mut page = [0u8; sheet_page::PAGE];
    let count = sheet_page::print(&input[..n], &mut page);
    if count <= sheet_page::PAGE && !io::write_all(1, &page[..count]) {
        io::write_all(2, b"sheet: cannot write\n");
    }
    let mut line = ArrayVec::<u8, PAGE>::new();
    sheet_reasons::words::put(&input[..n], &mut line);
    io::write_all(2, line.as_slice());
}
