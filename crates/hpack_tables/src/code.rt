//! The Huffman code of octets (RFC 7541, section 5.2 and appendix B).
ghost use Rattle.std.specs.Prelude.{◌≡◌, ◌≤◌, ◌+◌, length, IfSome};
ghost use Rattle.hpack_tables.specs.Code.{symbol_of};
ghost use Rattle.hpack_tables.specs.Rows.{symbol_in};

/// The symbol that stands for the end of a string.
pub(crate) const EOS: u16 = 256;

/// How many bits the longest codes have.
pub(crate) const LONGEST: u32 = 30;

// The codes of a length are numbers in a row: the first of them, how many there are, and the place
// of their symbols.
#[derive(Clone, Copy)]
struct Row {
    first_code: u64,
    count: u64,
    place: u64,
}

// Of each length from 0 to 30 bits.
const ROWS: [Row; 31] = [
    Row {
        first_code: 0,
        count: 0,
        place: 0,
    },
    Row {
        first_code: 0,
        count: 0,
        place: 0,
    },
    Row {
        first_code: 0,
        count: 0,
        place: 0,
    },
    Row {
        first_code: 0,
        count: 0,
        place: 0,
    },
    Row {
        first_code: 0,
        count: 0,
        place: 0,
    },
    Row {
        first_code: 0,
        count: 10,
        place: 0,
    },
    Row {
        first_code: 20,
        count: 26,
        place: 10,
    },
    Row {
        first_code: 92,
        count: 32,
        place: 36,
    },
    Row {
        first_code: 248,
        count: 6,
        place: 68,
    },
    Row {
        first_code: 508,
        count: 0,
        place: 74,
    },
    Row {
        first_code: 1016,
        count: 5,
        place: 74,
    },
    Row {
        first_code: 2042,
        count: 3,
        place: 79,
    },
    Row {
        first_code: 4090,
        count: 2,
        place: 82,
    },
    Row {
        first_code: 8184,
        count: 6,
        place: 84,
    },
    Row {
        first_code: 16380,
        count: 2,
        place: 90,
    },
    Row {
        first_code: 32764,
        count: 3,
        place: 92,
    },
    Row {
        first_code: 65534,
        count: 0,
        place: 95,
    },
    Row {
        first_code: 131068,
        count: 0,
        place: 95,
    },
    Row {
        first_code: 262136,
        count: 0,
        place: 95,
    },
    Row {
        first_code: 524272,
        count: 3,
        place: 95,
    },
    Row {
        first_code: 1048550,
        count: 8,
        place: 98,
    },
    Row {
        first_code: 2097116,
        count: 13,
        place: 106,
    },
    Row {
        first_code: 4194258,
        count: 26,
        place: 119,
    },
    Row {
        first_code: 8388568,
        count: 29,
        place: 145,
    },
    Row {
        first_code: 16777194,
        count: 12,
        place: 174,
    },
    Row {
        first_code: 33554412,
        count: 4,
        place: 186,
    },
    Row {
        first_code: 67108832,
        count: 15,
        place: 190,
    },
    Row {
        first_code: 134217694,
        count: 19,
        place: 205,
    },
    Row {
        first_code: 268435426,
        count: 29,
        place: 224,
    },
    Row {
        first_code: 536870910,
        count: 0,
        place: 253,
    },
    Row {
        first_code: 1073741820,
        count: 4,
        place: 253,
    },
];

// The symbols in the order of their codes.
const SYMBOLS: [u16; 257] = [
    48, 49, 50, 97, 99, 101, 105, 111, 115, 116, 32, 37, 45, 46, 47, 51, 52, 53, 54, 55, 56, 57,
    61, 65, 95, 98, 100, 102, 103, 104, 108, 109, 110, 112, 114, 117, 58, 66, 67, 68, 69, 70, 71,
    72, 73, 74, 75, 76, 77, 78, 79, 80, 81, 82, 83, 84, 85, 86, 87, 89, 106, 107, 113, 118, 119,
    120, 121, 122, 38, 42, 44, 59, 88, 90, 33, 34, 40, 41, 63, 39, 43, 124, 35, 62, 0, 36, 64, 91,
    93, 126, 94, 125, 60, 96, 123, 92, 195, 208, 128, 130, 131, 162, 184, 194, 224, 226, 153, 161,
    167, 172, 176, 177, 179, 209, 216, 217, 227, 229, 230, 129, 132, 133, 134, 136, 146, 154, 156,
    160, 163, 164, 169, 170, 173, 178, 181, 185, 186, 187, 189, 190, 196, 198, 228, 232, 233, 1,
    135, 137, 138, 139, 140, 141, 143, 147, 149, 150, 151, 152, 155, 157, 158, 165, 166, 168, 174,
    175, 180, 182, 183, 188, 191, 197, 231, 239, 9, 142, 144, 145, 148, 159, 171, 206, 215, 225,
    236, 237, 199, 207, 234, 235, 192, 193, 200, 201, 202, 205, 210, 213, 218, 219, 238, 240, 242,
    243, 255, 203, 204, 211, 212, 214, 221, 222, 223, 241, 244, 245, 246, 247, 248, 250, 251, 252,
    253, 254, 2, 3, 4, 5, 6, 7, 8, 11, 12, 14, 15, 16, 17, 18, 19, 20, 21, 23, 24, 25, 26, 27, 28,
    29, 30, 31, 127, 220, 249, 10, 13, 22, 256,
];

// The symbol whose code has the length of a row and this number, if there is one.
fn symbol_in(row: Row, symbols: &[u16], code: u64) -> Option<u16>
    requires inside { row.place + row.count ≤ length symbols.now }
    requires fits { length symbols.now ≤ 257 }
    ensures { result ≡ symbol_in row symbols.now code }
{
    if code < row.first_code || code - row.first_code >= row.count {
        return None;
    }
    Some(symbols[(row.place + (code - row.first_code)) as usize])
}

/// The symbol whose code has so many bits and this number, if there is one.
pub(crate) fn symbol_of(bits: u32, code: u64) -> Option<u16>
    ensures exact { result ≡ symbol_of bits code }
    ensures small { IfSome result (λ symbol. symbol ≤ 256) }
{
    if bits > LONGEST {
        return None;
    }
    let rows: &[Row] = &ROWS;
    symbol_in(rows[bits as usize], &SYMBOLS, code)
}
