//! Requests, printed by bench/tables/request_rows.py: Google's Protocol Buffers wrote the bytes of each.

/// First requests and answers, and the bytes of each.
pub const WRITTEN: &[u8] = b"\
first authorization ztunnel-x~10.0.0.1; 0a 14 0a 12 7a 74 75 6e 6e 65 6c 2d 78 7e 31 30 2e 30 2e 30 2e 31 12 30 UZ\n\
first address n; 0a 03 0a 01 6e 12 2a UA\n\
first address - u2=1; 0a 00 12 2a UA 2a 07 0a 02 75 32 12 01 31\n\
first authorization n n*60=2; 0a 03 0a 01 6e 12 30 UZ 2a 41 0a 3c 6e*60 12 01 32\n\
first authorization - zz=2 u1=2; 0a 00 12 30 UZ 2a 07 0a 02 75 31 12 01 32 2a 07 0a 02 7a 7a 12 01 32\n\
first authorization ztunnel-x~10.0.0.1 u2=2026-11-27 u2=1; 0a 14 0a 12 7a 74 75 6e 6e 65 6c 2d 78 7e 31 30 2e 30 2e 30 2e 31 12 30 \
    UZ 2a 07 0a 02 75 32 12 01 31\n\
first address n u2=2 u1=1; 0a 03 0a 01 6e 12 2a UA 2a 07 0a 02 75 31 12 01 31 2a 07 0a 02 75 32 12 01 32\n\
first address z1 u2=2 a/p=17 U1=v*70; 0a 04 0a 02 7a 31 12 2a UA 2a 4c 0a 02 55 31 12 46 76*70 2a 09 0a 03 61 2f 70 12 02 31 37 2a \
    07 0a 02 75 32 12 01 32\n\
first address z1 \xf0\x9f\x98\x80=2 b=17 u1=17; 0a 04 0a 02 7a 31 12 2a UA 2a 07 0a 01 62 12 02 31 37 2a 08 0a 02 75 31 12 02 31 \
    37 2a 09 0a 04 f0 9f 98 80 12 01 32\n\
first authorization z1 u2=17 u10=17 a/p=v*70 zz=1; 0a 04 0a 02 7a 31 12 30 UZ 2a 4d 0a 03 61 2f 70 12 46 76*70 2a 09 0a 03 75 31 \
    30 12 02 31 37 2a 08 0a 02 75 32 12 02 31 37 2a 07 0a 02 7a 7a 12 01 31\n\
first authorization - a/p=17 n*60=17 \xc3\xa9=17 u2=2026-11-27 \xc3\xa9=2; 0a 00 12 30 UZ 2a 09 0a 03 61 2f 70 12 02 31 37 2a 42 \
    0a 3c 6e*60 12 02 31 37 2a 10 0a 02 75 32 12 0a 32 30 32 36 2d 31 31 2d 32 37 2a 07 0a 02 c3 a9 12 01 32\n\
first address ztunnel-x~10.0.0.1 u1=17 n*60=2026-11-27 u1=v*70 \xef\xbd\x9e=2026-11-27 a=2026-11-27 zz=1; 0a 14 0a 12 7a 74 75 6e \
    6e 65 6c 2d 78 7e 31 30 2e 30 2e 30 2e 31 12 2a UA 2a 0f 0a 01 61 12 0a 32 30 32 36 2d 31 31 2d 32 37 2a 4a 0a 3c 6e*60 12 0a 32 \
    30 32 36 2d 31 31 2d 32 37 2a 4c 0a 02 75 31 12 46 76*70 2a 07 0a 02 7a 7a 12 01 31 2a 11 0a 03 ef bd 9e 12 0a 32 30 32 36 2d 31 \
    31 2d 32 37\n\
answer authorization -; 12 30 UZ\n\
answer address x5; 12 2a UA 32 02 78 35\n\
answer address x5; 12 2a UA 32 02 78 35\n\
answer authorization nonce-17; 12 30 UZ 32 08 6e 6f 6e 63 65 2d 31 37\n\
answer authorization nonce-17 b; 12 30 UZ 32 08 6e 6f 6e 63 65 2d 31 37 3a 05 08 03 12 01 62\n\
answer authorization - -; 12 30 UZ 3a 02 08 03\n\
answer authorization nonce-17 \xc3\xa9/p; 12 30 UZ 32 08 6e 6f 6e 63 65 2d 31 37 3a 08 08 03 12 04 c3 a9 2f 70\n\
answer address n*130 a/p; 12 2a UA 32 82 01 6e*130 3a 07 08 03 12 03 61 2f 70\n\
answer address x5 r*140; 12 2a UA 32 02 78 35 3a 91 01 08 03 12 8c 01 72*140";
