//! The Result-Codes that are counted apart (RFC 6733, section 7.1).

ghost use Rattle.std.specs.Prelude.{◌≡◌, ◌==◌, position};
ghost use Rattle.dcc_metrics.specs.Messages.{index_in, index_of_result, number_of};

use crate::numbers::number_of;

/// The code of the AVP Result-Code.
pub(crate) const RESULT_CODE: u32 = 268;

/// The Result-Codes that this server answers with, in the order in which a page has them.
pub const RESULTS: [u32; 19] = [
    2001, 3001, 3004, 3007, 3008, 4012, 5001, 5002, 5004, 5005, 5006, 5007, 5009, 5010, 5012, 5014,
    5017, 5030, 5031,
];

/// DIAMETER_TOO_BUSY (RFC 6733, section 7.1.3).
pub const TOO_BUSY: u32 = 3004;

/// The Result-Code of an answer: the number in the first AVP Result-Code among its first 32 AVPs, if it has one there. It takes no memory.
pub fn result_of(answer: &[u8]) -> Option<u32>
    ensures { result ≡ number_of RESULT_CODE answer.now }
{
    number_of(answer, RESULT_CODE)
}

/// The index of a Result-Code in [`RESULTS`]; the number of these for each other code, and for none.
pub(crate) fn index_of_result(code: Option<u32>) -> usize
    ensures { result ≡ index_of_result code }
{
    match code {
        Some(code) => index_in(&RESULTS, code),
        None => RESULTS.len(),
    }
}

/// The index of a code among these; their number for another code.
fn index_in(codes: &[u32], code: u32) -> usize
    ensures { result ≡ index_in codes.now code }
{
    match place_in(codes, code) {
        Some(index) => index,
        None => codes.len(),
    }
}

/// The index of a code among these.
fn place_in(codes: &[u32], code: u32) -> Option<usize>
    ensures { result ≡ position (λ one. one == code) codes.now }
{
    codes.iter().position(|known| *known == code)
}
