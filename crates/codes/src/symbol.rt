// The codes of output symbols, from a table that has them in the order of the operators' card (02, F-5).
ghost use Rattle.std.specs.Prelude.{◌<◌, [], ◌∷◌, ◌≡◌, position};
ghost use Rattle.std.specs.Str.{bytes_eq};
ghost use Rattle.codes.specs.Codes.{symbol_code};
ghost use Rattle.codes.specs.Answers.{WritesCodes};
ghost use Rattle.codes.specs.Inner.Table.{code_table, symbol_with};

use formats::file::copy_at;
use trees::refusal::Refusal;

// The code of every output symbol, by number.
const CODES: [[u8; 2]; 64] = [
    *b"A1", *b"A2", *b"A3", *b"A4", *b"A5", *b"A6", *b"A7", *b"A8", *b"B1", *b"B2", *b"B3", *b"B4",
    *b"B5", *b"B6", *b"B7", *b"B8", *b"C1", *b"C2", *b"C3", *b"C4", *b"C5", *b"C6", *b"C7", *b"C8",
    *b"D1", *b"D2", *b"D3", *b"D4", *b"D5", *b"D6", *b"D7", *b"D8", *b"E1", *b"E2", *b"E3", *b"E4",
    *b"E5", *b"E6", *b"E7", *b"E8", *b"F1", *b"F2", *b"F3", *b"F4", *b"F5", *b"F6", *b"F7", *b"F8",
    *b"G1", *b"G2", *b"G3", *b"G4", *b"G5", *b"G6", *b"G7", *b"G8", *b"H1", *b"H2", *b"H3", *b"H4",
    *b"H5", *b"H6", *b"H7", *b"H8",
];

// The table, entry by entry that of the definition.
fn table() -> [[u8; 2]; 64]
    ensures { result ≡ code_table }
{
    CODES
}

// The code of output symbol k: its entry in the table.
pub fn symbol_code(k: usize) -> [u8; 2]
    requires { k < 64 }
    ensures { result ≡ symbol_code k }
{
    table()[k]
}

// The place of a code in a table.
fn place_of(codes: &[[u8; 2]; 64], code: [u8; 2]) -> Option<usize>
    ensures { result ≡ position (λ c. bytes_eq c code) codes.now }
{
    codes.iter().position(|c| *c == code)
}

// The output symbol that has this code: the table is searched for it.
pub fn symbol_of(letter: u8, digit: u8) -> Option<u8>
    ensures { result ≡ symbol_with (letter ∷ digit ∷ []) }
{
    let symbol = place_of(&table(), [letter, digit])?;
    Some(symbol as u8)
}

// Writes the codes of all 64 output symbols to the start of the area, two bytes each.
pub fn write_codes(area: &mut [u8]) -> Result<(), Refusal>
    ensures { WritesCodes area.old area.new result }
{
    if area.len() < 128 {
        return Err(Refusal::ShortArea);
    }
    for k in 0..64 {
        copy_at(&symbol_code(k), area, 2 * k);
    }
    Ok(())
}
