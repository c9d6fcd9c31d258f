//! The static table (RFC 7541 Appendix A).

ghost use Rattle.std.specs.Prelude.{◌≡◌, ◌<◌, Some, slice_get};
ghost use Rattle.hb_hpack.specs.StaticTable.{header, static_headers};

/// The length of the name of each header, in order.
pub(crate) static NAME_LENGTHS: [u8; 61] = [
    10, 7, 7, 5, 5, 7, 7, 7, 7, 7, 7, 7, 7, 7, 14, 15, 15, 13, 6, 27, 3, 5, 13, 13, 19, 16, 16, 14,
    16, 13, 12, 6, 4, 4, 6, 7, 4, 4, 8, 17, 13, 8, 19, 13, 4, 8, 12, 18, 19, 5, 7, 7, 11, 6, 10,
    25, 17, 10, 4, 3, 16,
];

/// The name and the value of the header at this place, counted from 0.
#[tactic(auto, unfolding(crate::specs::StaticTable::static_headers))]
pub(crate) fn static_header(place: usize) -> (&'static [u8], &'static [u8])
    requires { place < 61 }
    ensures { slice_get static_headers place ≡ Some (header result.0.now result.1.now) }
{
    match place {
        0 => (b":authority", b""),
        1 => (b":method", b"GET"),
        2 => (b":method", b"POST"),
        3 => (b":path", b"/"),
        4 => (b":path", b"/index.html"),
        5 => (b":scheme", b"http"),
        6 => (b":scheme", b"https"),
        7 => (b":status", b"200"),
        8 => (b":status", b"204"),
        9 => (b":status", b"206"),
        10 => (b":status", b"304"),
        11 => (b":status", b"400"),
        12 => (b":status", b"404"),
        13 => (b":status", b"500"),
        14 => (b"accept-charset", b""),
        15 => (b"accept-encoding", b"gzip, deflate"),
        16 => (b"accept-language", b""),
        17 => (b"accept-ranges", b""),
        18 => (b"accept", b""),
        19 => (b"access-control-allow-origin", b""),
        20 => (b"age", b""),
        21 => (b"allow", b""),
        22 => (b"authorization", b""),
        23 => (b"cache-control", b""),
        24 => (b"content-disposition", b""),
        25 => (b"content-encoding", b""),
        26 => (b"content-language", b""),
        27 => (b"content-length", b""),
        28 => (b"content-location", b""),
        29 => (b"content-range", b""),
        30 => (b"content-type", b""),
        31 => (b"cookie", b""),
        32 => (b"date", b""),
        33 => (b"etag", b""),
        34 => (b"expect", b""),
        35 => (b"expires", b""),
        36 => (b"from", b""),
        37 => (b"host", b""),
        38 => (b"if-match", b""),
        39 => (b"if-modified-since", b""),
        40 => (b"if-none-match", b""),
        41 => (b"if-range", b""),
        42 => (b"if-unmodified-since", b""),
        43 => (b"last-modified", b""),
        44 => (b"link", b""),
        45 => (b"location", b""),
        46 => (b"max-forwards", b""),
        47 => (b"proxy-authenticate", b""),
        48 => (b"proxy-authorization", b""),
        49 => (b"range", b""),
        50 => (b"referer", b""),
        51 => (b"refresh", b""),
        52 => (b"retry-after", b""),
        53 => (b"server", b""),
        54 => (b"set-cookie", b""),
        55 => (b"strict-transport-security", b""),
        56 => (b"transfer-encoding", b""),
        57 => (b"user-agent", b""),
        58 => (b"vary", b""),
        59 => (b"via", b""),
        60 => (b"www-authenticate", b""),
        _ => unreachable!(),
    }
}
