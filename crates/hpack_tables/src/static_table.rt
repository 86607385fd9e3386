//! The static table (RFC 7541, appendix A).
ghost use Rattle.std.specs.Prelude.{◌≡◌, ◌+◌, ◌<◌, ◌≤◌, length, slice_get, slice_index, slice_range, Some};
ghost use Rattle.hpack_tables.specs.Tables.{header, static_table};

// The names and the values, one after another.
const TEXT: [u8; 684] = *b"\
:authority\
:methodGET\
:methodPOST\
:path/\
:path/index.html\
:schemehttp\
:schemehttps\
:status200\
:status204\
:status206\
:status304\
:status400\
:status404\
:status500\
accept-charset\
accept-encodinggzip, deflate\
accept-language\
accept-ranges\
accept\
access-control-allow-origin\
age\
allow\
authorization\
cache-control\
content-disposition\
content-encoding\
content-language\
content-length\
content-location\
content-range\
content-type\
cookie\
date\
etag\
expect\
expires\
from\
host\
if-match\
if-modified-since\
if-none-match\
if-range\
if-unmodified-since\
last-modified\
link\
location\
max-forwards\
proxy-authenticate\
proxy-authorization\
range\
referer\
refresh\
retry-after\
server\
set-cookie\
strict-transport-security\
transfer-encoding\
user-agent\
vary\
via\
www-authenticate\
";

// Where each name and each value begins in the text, and its end.
const BOUNDS: [u16; 123] = [
    0, 10, 10, 17, 20, 27, 31, 36, 37, 42, 53, 60, 64, 71, 76, 83, 86, 93, 96, 103, 106, 113, 116,
    123, 126, 133, 136, 143, 146, 160, 160, 175, 188, 203, 203, 216, 216, 222, 222, 249, 249, 252,
    252, 257, 257, 270, 270, 283, 283, 302, 302, 318, 318, 334, 334, 348, 348, 364, 364, 377, 377,
    389, 389, 395, 395, 399, 399, 403, 403, 409, 409, 416, 416, 420, 420, 424, 424, 432, 432, 449,
    449, 462, 462, 470, 470, 489, 489, 502, 502, 506, 506, 514, 514, 526, 526, 544, 544, 563, 563,
    568, 568, 575, 575, 582, 582, 593, 593, 599, 599, 609, 609, 634, 634, 651, 651, 661, 661, 665,
    665, 668, 668, 684, 684,
];

/// How many entries the static table has.
pub(crate) const STATIC_ENTRIES: usize = 61;

// The piece of a text between two bounds.
fn piece<'a>(text: &'a [u8], bounds: &[u16], place: usize) -> &'a [u8]
    requires inside { place + 1 < length bounds.now }
    requires ordered { slice_index bounds.now place ≤ slice_index bounds.now (place + 1) }
    requires ends { slice_index bounds.now (place + 1) ≤ length text.now }
    ensures { result.now ≡ slice_range text.now (slice_index bounds.now place) (slice_index bounds.now (place + 1)) }
{
    &text[bounds[place] as usize..bounds[place + 1] as usize]
}

/// The name and the value of a static entry, counted from 0.
pub(crate) fn static_entry(place: usize) -> (&'static [u8], &'static [u8])
    requires { place < 61 }
    ensures { slice_get static_table place ≡ Some (header result.0.now result.1.now) }
{
    (
        piece(&TEXT, &BOUNDS, 2 * place),
        piece(&TEXT, &BOUNDS, 2 * place + 1),
    )
}
