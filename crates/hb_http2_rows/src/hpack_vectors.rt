//! Header blocks, printed by bench/tables/hpack_vectors.py: nghttp2 made or read each of them.
//!
//! `n` begins a new decoder. `r` has a block, the sizes of its list and of the table behind it, and its kept headers:
//! of each `|`, the name, `|` and the value, where `%` and two digits are a byte. `f` has a block, and the offset and number of its fault.
//! 271 blocks are read and 210 are refused.

pub const PART_1: &[u8] = b"\
n
r 8287049161051d849ffced00d51023f8ac7316017f418c9ce84b6b97c8e9ae82ae43d37a8825b650c3cbb6b83f1f118c349034e3c31b4c97ed44c0d74088f2b585ed6950958101f4 354 155 |:method|GET|:scheme|https|:path|/search?q=a%2520b&page=2|:authority|host5.example.com|user-agent|curl/8.5.0|cookie|id=468aa43e;%20t=4|x-request-0|%f4
r 838685418c9ce84b4b97c8e9ae82ae43d37a882d5dcfe980ae27ff1f0891ba51d85b147c8fc9232d91d8c91844d49f 313 266 |:method|POST|:scheme|http|:path|/index.html|:authority|host4.example.com|user-agent|envoy/1.29|authorization|Bearer%209c9dd35c7bcb124d
r 420350555487048662728e84cfefc07ab4d07f66a281b0dae053fafc087ed4ce6aadf2a7979c89c6bed4b3bdc0882b83fb531149d4ec0801000200a984d61653f960220ae01f118c34904aeb4269d007ed44c0d71f0891ba51d85b14686c92571d69e2b4f025649f4088f2b585ed6950958504fd5882e7 471 467 |:method|PUT|:scheme|https|:path|/healthz|:authority|host4.example.com|user-agent|Mozilla/5.0%20(X11;%20Linux%20x86_64;%20rv:121.0)%20Gecko/20100101%20Firefox/121.0|cookie|id=f7424701;%20t=4|authorization|Bearer%204a3cf6748e480f3c|x-request-2|%fdX%82%e7
r 4207434f4e4e4543548704906075998ee162b3c88ff2835264c0d801418c9ce848172f91d35d055c87a7c31f118c349038f0dc94720fed44c0d74088f2b585ed6950958304c90f3ec1 361 619 |:method|CONNECT|:scheme|https|:path|/api/v1/pods?limit=500|:authority|host0.example.com|user-agent|envoy/1.29|cookie|id=68a6fada;%20t=4|x-request-1|%c9%0f>%c1
r c08604906075998ee162b3c88ff2835264c0d801bfc27f0709cc24680fc657df517090 431 671 |:method|CONNECT|:scheme|http|:path|/api/v1/pods?limit=500|:authority|host0.example.com|user-agent|Mozilla/5.0%20(X11;%20Linux%20x86_64;%20rv:121.0)%20Gecko/20100101%20Firefox/121.0|x-request-0|%cc$h%0f%c6W%dfQp|accept-encoding|gzip,%20deflate
r c48604906075998ee162b3c88ff2835264c0d801c9c31f118c349036213ed85e17da89801f1f0890ba51d85b148dc18c32908e09d13832bb 437 671 |:method|PUT|:scheme|http|:path|/api/v1/pods?limit=500|:authority|host5.example.com|user-agent|Mozilla/5.0%20(X11;%20Linux%20x86_64;%20rv:121.0)%20Gecko/20100101%20Firefox/121.0|cookie|id=52295182;%20t=0|authorization|Bearer%20b6aa1fcc62726ae7
r c487048e6068415286075d6bb32886bf447fc0c34088f2b585ed69509599098078e5f5b1d48e612e90 425 723 |:method|PUT|:scheme|https|:path|/assets/app.3f2a.js|:authority|host0.example.com|user-agent|Mozilla/5.0%20(X11;%20Linux%20x86_64;%20rv:121.0)%20Gecko/20100101%20Firefox/121.0|x-request-3|%80x%e5%f5%b1%d4%8ea.|accept-encoding|gzip,%20deflate
r c287048662728e84cfefc1c9 246 723 |:method|CONNECT|:scheme|https|:path|/healthz|:authority|host0.example.com|user-agent|curl/8.5.0
r c58604906075998ee162b3c88ff2835264c0d801cac97e090144725ac5a2bc914c 307 775 |:method|PUT|:scheme|http|:path|/api/v1/pods?limit=500|:authority|host5.example.com|user-agent|curl/8.5.0|x-request-3|%01DrZ%c5%a2%bc%91L
r c38684cbc51f118c34904838c2113ecfda8981df 352 775 |:method|CONNECT|:scheme|http|:path|/|:authority|host5.example.com|user-agent|Mozilla/5.0%20(X11;%20Linux%20x86_64;%20rv:121.0)%20Gecko/20100101%20Firefox/121.0|cookie|id=dab11293;%20t=7
r c38684418c9ce84b2b97c8e9ae82ae43d3cb1f118c34903f23a5708e8fed44c00f1f0891ba51d85b14686270720e395a289b8de0ff90 420 834 |:method|CONNECT|:scheme|http|:path|/|:authority|host3.example.com|user-agent|curl/8.5.0|cookie|id=9d7e6c7a;%20t=0|authorization|Bearer%204a26adabf4e25b81|accept-encoding|gzip,%20deflate
r 8287049161051d849ffced00d51023f8ac7316017f418c9ce848572f91d35d055c87a7c91f0891ba51d85b147e47dd7637c6e084d36303df 324 893 |:method|GET|:scheme|https|:path|/search?q=a%2520b&page=2|:authority|host1.example.com|user-agent|envoy/1.29|authorization|Bearer%209d977b9a62245a08
n
r 3fe1018387048e6068415286075d6bb32886bf447f418c9ce84b2b97c8e9ae82ae43d37ab4d07f66a281b0dae053fafc087ed4ce6aadf2a7979c89c6bed4b3bdc0882b83fb531149d4ec0801000200a984d61653f960220ae01f118c3490102fc7195d6fed44c0cf 368 171 |:method|POST|:scheme|https|:path|/assets/app.3f2a.js|:authority|host3.example.com|user-agent|Mozilla/5.0%20(X11;%20Linux%20x86_64;%20rv:121.0)%20Gecko/20100101%20Firefox/121.0|cookie|id=c19bbe75;%20t=3
r 42035055548784418c9ce848972f91d35d055c87a77a8825b650c3cbb6b83f4088f2b585ed69509585071c7915778af84c 285 203 |:method|PUT|:scheme|https|:path|/|:authority|host2.example.com|user-agent|curl/8.5.0|x-request-2|%1cy%15w%8a%f8L
r 203fe1018287048662728e84cfef418c9ce84b6b97c8e9ae82ae43d37a8825b650c3cbb6b83f90 302 111 |:method|GET|:scheme|https|:path|/healthz|:authority|host5.example.com|user-agent|curl/8.5.0|accept-encoding|gzip,%20deflate
r 8387048662728e84cfef418c9ce84b2b97c8e9ae82ae43d37a882d5dcfe980ae27ff1f118c349032213c59444fb51300bf90 357 222 |:method|POST|:scheme|https|:path|/healthz|:authority|host3.example.com|user-agent|envoy/1.29|cookie|id=3228ef2c;%20t=2|accept-encoding|gzip,%20deflate
r 4207434f4e4e45435486049161051d849ffced00d51023f8ac7316017f418c9ce84b6b97c8e9ae82ae43d3c04088f2b585ed6950958301bc90 363 201 |:method|CONNECT|:scheme|http|:path|/search?q=a%2520b&page=2|:authority|host5.example.com|user-agent|envoy/1.29|x-request-1|%bc|accept-encoding|gzip,%20deflate
r 8387048662728e84cfef418c9ce84b4b97c8e9ae82ae43d37ab4d07f66a281b0dae053fafc087ed4ce6aadf2a7979c89c6bed4b3bdc0882b83fb531149d4ec0801000200a984d61653f960220ae01f0891ba51d85b1474a279d699138d90a07c6e7f4088f2b585ed695095810140 415 215 |:method|POST|:scheme|https|:path|/healthz|:authority|host4.example.com|user-agent|Mozilla/5.0%20(X11;%20Linux%20x86_64;%20rv:121.0)%20Gecko/20100101%20Firefox/121.0|authorization|Bearer%207e28743265ce09a6|x-request-0|@
r 20020350555487048662728e84cfef018c9ce84b4b97c8e9ae82ae43d30f2b8825b650c3cbb6b83f1f118c349005a281c0b62fb513007f1f0891ba51d85b149256d9111d8e58dd0140c93f90 424 0 |:method|PUT|:scheme|https|:path|/healthz|:authority|host4.example.com|user-agent|curl/8.5.0|cookie|id=14e06152;%20t=1|authorization|Bearer%20df532c7bfb70e03c|accept-encoding|gzip,%20deflate
r 0207434f4e4e4543548685018c9ce84b4b97c8e9ae82ae43d30f2b8825b650c3cbb6b83f 248 0 |:method|CONNECT|:scheme|http|:path|/index.html|:authority|host4.example.com|user-agent|curl/8.5.0
r 838785018c9ce848572f91d35d055c87a70f2bb4d07f66a281b0dae053fafc087ed4ce6aadf2a7979c89c6bed4b3bdc0882b83fb531149d4ec0801000200a984d61653f960220ae00088f2b585ed695095810a8605374aa7a4be1572af 359 0 |:method|POST|:scheme|https|:path|/index.html|:authority|host1.example.com|user-agent|Mozilla/5.0%20(X11;%20Linux%20x86_64;%20rv:121.0)%20Gecko/20100101%20Firefox/121.0|x-request-0|%86%057J%a7%a4%be%15r%af
r 02035055548685018c9ce848172f91d35d055c87a70f2bb4d07f66a281b0dae053fafc087ed4ce6aadf2a7979c89c6bed4b3bdc0882b83fb531149d4ec0801000200a984d61653f960220ae01f118c349049204426441fb513035f0088f2b585ed69509599063cab5f9a4803 407 0 |:method|PUT|:scheme|http|:path|/index.html|:authority|host0.example.com|user-agent|Mozilla/5.0%20(X11;%20Linux%20x86_64;%20rv:121.0)%20Gecko/20100101%20Firefox/121.0|cookie|id=dd122321;%20t=4|x-request-3|<%ab_%9aH%03
r 203fe101420350555487048e6068415286075d6bb32886bf447f418c9ce84b6b97c8e9ae82ae43d37ab4d07f66a281b0dae053fafc087ed4ce6aadf2a7979c89c6bed4b3bdc0882b83fb531149d4ec0801000200a984d61653f960220ae01f118c349034d9492bc47bed44c0cf1f0891ba51d85b14086595b8d971f6657d979f2f 435 213 |:method|PUT|:scheme|https|:path|/assets/app.3f2a.js|:authority|host5.example.com|user-agent|Mozilla/5.0%20(X11;%20Linux%20x86_64;%20rv:121.0)%20Gecko/20100101%20Firefox/121.0|cookie|id=45ecf8c8;%20t=3|authorization|Bearer%2011ff5b3693f9389e
r c08785bf7a882d5dcfe980ae27ff1f118c34903d295d7db049f6a2606f4088f2b585ed69509585068d9caa8388f8 348 213 |:method|PUT|:scheme|https|:path|/index.html|:authority|host5.example.com|user-agent|envoy/1.29|cookie|id=8fe7950d;%20t=5|x-request-2|%8d%9c%aa%83%88%f8
n
r 3fe103838685418c9ce84b4b97c8e9ae82ae43d37a882d5dcfe980ae27ff1f118c34903ee46db71805f6a2607b1f0890ba51d85b1479b246fb60110a38c810934088f2b585ed6950959904f8d576d3 414 158 |:method|POST|:scheme|http|:path|/index.html|:authority|host4.example.com|user-agent|envoy/1.29|cookie|id=96b55b02;%20t=8|authorization|Bearer%2085cb9502ceabc11c|x-request-3|%f8%d5v%d3
r 4207434f4e4e4543548784c17a8825b650c3cbb6b83f 239 256 |:method|CONNECT|:scheme|https|:path|/|:authority|host4.example.com|user-agent|curl/8.5.0
r 42035055548684418c9ce848972f91d35d055c87a7c090 294 357 |:method|PUT|:scheme|http|:path|/|:authority|host2.example.com|user-agent|curl/8.5.0|accept-encoding|gzip,%20deflate
r 8387049161051d849ffced00d51023f8ac7316017fbe7ab4d07f66a281b0dae053fafc087ed4ce6aadf2a7979c89c6bed4b3bdc0882b83fb531149d4ec0801000200a984d61653f960220ae0 317 469 |:method|POST|:scheme|https|:path|/search?q=a%2520b&page=2|:authority|host2.example.com|user-agent|Mozilla/5.0%20(X11;%20Linux%20x86_64;%20rv:121.0)%20Gecko/20100101%20Firefox/121.0
r 828604906075998ee162b3c88ff2835264c0d801418c9ce84b2b97c8e9ae82ae43d3bf1f118c34903c490a0009efb51300bf4088f2b585ed695095850b629bfbdf034cc0bbe3afa190 483 471 |:method|GET|:scheme|http|:path|/api/v1/pods?limit=500|:authority|host3.example.com|user-agent|Mozilla/5.0%20(X11;%20Linux%20x86_64;%20rv:121.0)%20Gecko/20100101%20Firefox/121.0|cookie|id=8cde0028;%20t=2|x-request-2|b%9b%fb%df%03L%c0%bb%e3%af%a1|accept-encoding|gzip,%20deflate
r 8386049161051d849ffced00d51023f8ac7316017f418c9ce848172f91d35d055c87a7c41f0891ba51d85b148c0ec83747211a946265f7bf90 384 483 |:method|POST|:scheme|http|:path|/search?q=a%2520b&page=2|:authority|host0.example.com|user-agent|curl/8.5.0|authorization|Bearer%20b07da7adc4fa2398|accept-encoding|gzip,%20deflate
r 8286048e6068415286075d6bb32886bf447f418c9ce84b4b97c8e9ae82ae43d3c21f118c349038329060147f6a2606ff1f0891ba51d85b147a469b79e9656c2d46f0dc8f7f0103d9fc9290 540 490 |:method|GET|:scheme|http|:path|/assets/app.3f2a.js|:authority|host4.example.com|user-agent|Mozilla/5.0%20(X11;%20Linux%20x86_64;%20rv:121.0)%20Gecko/20100101%20Firefox/121.0|cookie|id=6aeca02b;%20t=5|authorization|Bearer%208d4588ff514b8a6b|x-request-2|%d9%fc%92|accept-encoding|gzip,%20deflate
r 4207434f4e4e4543548685c0c41f118c3490372b4fb91bcdfda898051f0891ba51d85b14943289b295a0024238d36dff 430 494 |:method|CONNECT|:scheme|http|:path|/index.html|:authority|host4.example.com|user-agent|Mozilla/5.0%20(X11;%20Linux%20x86_64;%20rv:121.0)%20Gecko/20100101%20Firefox/121.0|cookie|id=5f496b85;%20t=2|authorization|Bearer%20f1f25ee400dc6455
r 828684c07a8825b650c3cbb6b83f1f118c34900081036cb22fb51300bf4088f2b585ed69509581054c04ddf001 336 423 |:method|GET|:scheme|http|:path|/|:authority|host4.example.com|user-agent|curl/8.5.0|cookie|id=0c105332;%20t=2|x-request-0|L%04%dd%f0%01
r 42035055548704906075998ee162b3c88ff2835264c0d801418c9ce848972f91d35d055c87a77ab4d07f66a281b0dae053fafc087ed4ce6aadf2a7979c89c6bed4b3bdc0882b83fb531149d4ec0801000200a984d61653f960220ae01f118c34904a46ca07c45fb513039f1f0890ba51d85b140c60001a7c2f4a500c806b 438 464 |:method|PUT|:scheme|https|:path|/api/v1/pods?limit=500|:authority|host2.example.com|user-agent|Mozilla/5.0%20(X11;%20Linux%20x86_64;%20rv:121.0)%20Gecko/20100101%20Firefox/121.0|cookie|id=fc5e092e;%20t=6|authorization|Bearer%201b0004918fe0ac04
r c387048e6068415286075d6bb32886bf447fc5c21f118c34903827a32c6227da89801f1f0891ba51d85b142c72c71c807da688513cfbbf 379 464 |:method|CONNECT|:scheme|https|:path|/assets/app.3f2a.js|:authority|host4.example.com|user-agent|curl/8.5.0|cookie|id=628beb2c;%20t=0|authorization|Bearer%20ebfbbd0944ce2897
r c08704906075998ee162b3c88ff2835264c0d801bfc290 316 464 |:method|PUT|:scheme|https|:path|/api/v1/pods?limit=500|:authority|host2.example.com|user-agent|curl/8.5.0|accept-encoding|gzip,%20deflate";

pub const PART_2: &[u8] = b"\
n
r 3f7742035055548785418c9ce84b4b97c8e9ae82ae43d37ab4d07f66a281b0dae053fafc087ed4ce6aadf2a7979c89c6bed4b3bdc0882b83fb531149d4ec0801000200a984d61653f960220ae01f118c34903b212470412fda89803f 359 112 |:method|PUT|:scheme|https|:path|/index.html|:authority|host4.example.com|user-agent|Mozilla/5.0%20(X11;%20Linux%20x86_64;%20rv:121.0)%20Gecko/20100101%20Firefox/121.0|cookie|id=7dcd621e;%20t=1
r 838604906075998ee162b3c88ff2835264c0d801418c9ce84b4b97c8e9ae82ae43d37a8825b650c3cbb6b83f1f118c34903af09d919645f6a260671f0890ba51d85b147a5095e8db1be0034508644088f2b585ed69509581064f5aaffa02b990 487 101 |:method|POST|:scheme|http|:path|/api/v1/pods?limit=500|:authority|host4.example.com|user-agent|curl/8.5.0|cookie|id=7827d332;%20t=3|authorization|Bearer%208f1e8b5a9004e11d|x-request-0|OZ%af%fa%02%b9|accept-encoding|gzip,%20deflate
r 42035055548684418c9ce848572f91d35d055c87a77ab4d07f66a281b0dae053fafc087ed4ce6aadf2a7979c89c6bed4b3bdc0882b83fb531149d4ec0801000200a984d61653f960220ae01f0890ba51d85b140144175e91c14a414626e4 362 112 |:method|PUT|:scheme|http|:path|/|:authority|host1.example.com|user-agent|Mozilla/5.0%20(X11;%20Linux%20x86_64;%20rv:121.0)%20Gecko/20100101%20Firefox/121.0|authorization|Bearer%200e2178d62fc2b25d
r 4207434f4e4e45435486049161051d849ffced00d51023f8ac7316017f418c9ce848172f91d35d055c87a77a882d5dcfe980ae27ff1f118c3490086f36275f97ed44c0df4088f2b585ed69509585092231e4bba86dca736f 365 104 |:method|CONNECT|:scheme|http|:path|/search?q=a%2520b&page=2|:authority|host0.example.com|user-agent|envoy/1.29|cookie|id=2a85279f;%20t=5|x-request-2|%221%e4%bb%a8m%caso
r 838785418c9ce848572f91d35d055c87a77a8825b650c3cbb6b83f1f0891ba51d85b147c6d4ae32cb438e565c742d74088f2b585ed69509583016890 418 96 |:method|POST|:scheme|https|:path|/index.html|:authority|host1.example.com|user-agent|curl/8.5.0|authorization|Bearer%209a4f6334abf36714|x-request-1|h|accept-encoding|gzip,%20deflate
r 838704906075998ee162b3c88ff2835264c0d801418c9ce84b6b97c8e9ae82ae43d37a8825b650c3cbb6b83f 257 111 |:method|POST|:scheme|https|:path|/api/v1/pods?limit=500|:authority|host5.example.com|user-agent|curl/8.5.0
r 4207434f4e4e45435487048662728e84cfef418c9ce84b6b97c8e9ae82ae43d37a882d5dcfe980ae27ff4088f2b585ed695095810a3ca4ed0ff75369368530 299 105 |:method|CONNECT|:scheme|https|:path|/healthz|:authority|host5.example.com|user-agent|envoy/1.29|x-request-0|<%a4%ed%0f%f7Si6%850
r 8386049161051d849ffced00d51023f8ac7316017f418c9ce84b2b97c8e9ae82ae43d37a882d5dcfe980ae27ff1f118c349015b005e1849f6a26073f1f0890ba51d85b140b64211d759683246023624088f2b585ed69509583058d82bd8f5b 426 100 |:method|POST|:scheme|http|:path|/search?q=a%2520b&page=2|:authority|host3.example.com|user-agent|envoy/1.29|cookie|id=e5018a1c;%20t=6|authorization|Bearer%2015ccc77341db0c52|x-request-1|%8d%82%bd%8f[
r 420350555487048662728e84cfef418c9ce84b6b97c8e9ae82ae43d37a882d5dcfe980ae27ff1f118c34904651cad48d97ed44c0df4088f2b585ed6950958309fe430da2e30921a31e 348 104 |:method|PUT|:scheme|https|:path|/healthz|:authority|host5.example.com|user-agent|envoy/1.29|cookie|id=beaf4d5e;%20t=5|x-request-1|%feC%0d%a2%e3%09!%a3%1e
r 420350555486048e6068415286075d6bb32886bf447f418c9ce84b2b97c8e9ae82ae43d37a8825b650c3cbb6b83f4088f2b585ed6950958108a6bc0b5cab64db08 303 103 |:method|PUT|:scheme|http|:path|/assets/app.3f2a.js|:authority|host3.example.com|user-agent|curl/8.5.0|x-request-0|%a6%bc%0b%5c%abd%db%08
r 838684418c9ce848972f91d35d055c87a77a882d5dcfe980ae27ff1f118c349010812befba0fb513035f90 349 111 |:method|POST|:scheme|http|:path|/|:authority|host2.example.com|user-agent|envoy/1.29|cookie|id=cc1e9970;%20t=4|accept-encoding|gzip,%20deflate
r 420350555487048662728e84cfef418c9ce848972f91d35d055c87a77a8825b650c3cbb6b83f1f118c349001c90a58c6e7da89803f1f0890ba51d85b1469d2b6023923e10844f9414088f2b585ed6950958109c56443b5b43113776a90 476 104 |:method|PUT|:scheme|https|:path|/healthz|:authority|host2.example.com|user-agent|curl/8.5.0|cookie|id=06deeba6;%20t=1|authorization|Bearer%2047e50c6d911129e0|x-request-0|%c5dC%b5%b41%13wj|accept-encoding|gzip,%20deflate
n
r 4207434f4e4e45435487049161051d849ffced00d51023f8ac7316017f418c9ce84b2b97c8e9ae82ae43d37a8825b650c3cbb6b83f4088f2b585ed695095830a71dbc408517cc602aa83 313 210 |:method|CONNECT|:scheme|https|:path|/search?q=a%2520b&page=2|:authority|host3.example.com|user-agent|curl/8.5.0|x-request-1|q%db%c4%08Q%7c%c6%02%aa%83
r 42035055548685418c9ce848972f91d35d055c87a77a882d5dcfe980ae27ff1f118c349048ebee90041fda89819f1f0891ba51d85b1495c78857091b227e37c617ff4088f2b585ed6950959901fb90 470 407 |:method|PUT|:scheme|http|:path|/index.html|:authority|host2.example.com|user-agent|envoy/1.29|cookie|id=d797c0ca;%20t=3|authorization|Bearer%20f68ce6cb329b9a19|x-request-3|%fb|accept-encoding|gzip,%20deflate
r 203fe11f420350555486049161051d849ffced00d51023f8ac7316017f418c9ce84b6b97c8e9ae82ae43d37a882d5dcfe980ae27ff4088f2b585ed695095810b1fbcbb79af8510292fcbb5 309 207 |:method|PUT|:scheme|http|:path|/search?q=a%2520b&page=2|:authority|host5.example.com|user-agent|envoy/1.29|x-request-0|%1f%bc%bby%af%85%10)/%cb%b5
r 4207434f4e4e4543548684418c9ce84b4b97c8e9ae82ae43d37ab4d07f66a281b0dae053fafc087ed4ce6aadf2a7979c89c6bed4b3bdc0882b83fb531149d4ec0801000200a984d61653f960220ae01f118c34904b200a58e427da89803f1f0891ba51d85b148de0331cacbd2c627999596f4088f2b585ed695095990809adfb074815998390 531 475 |:method|CONNECT|:scheme|http|:path|/|:authority|host4.example.com|user-agent|Mozilla/5.0%20(X11;%20Linux%20x86_64;%20rv:121.0)%20Gecko/20100101%20Firefox/121.0|cookie|id=fd0eebdc;%20t=1|authorization|Bearer%20b803bf38fb283f35|x-request-3|%09%ad%fb%07H%15%99%83|accept-encoding|gzip,%20deflate
r 8287049161051d849ffced00d51023f8ac7316017f418c9ce848572f91d35d055c87a7c01f118c349038118a496597ed44c0df1f0890ba51d85b1464323252b8013a369b001b 438 534 |:method|GET|:scheme|https|:path|/search?q=a%2520b&page=2|:authority|host1.example.com|user-agent|Mozilla/5.0%20(X11;%20Linux%20x86_64;%20rv:121.0)%20Gecko/20100101%20Firefox/121.0|cookie|id=61a2dfff;%20t=5|authorization|Bearer%2031d3ee6027a45005
r c68684c1c41f118c34904848e40b2fbdf6a2600790 348 534 |:method|PUT|:scheme|http|:path|/|:authority|host4.example.com|user-agent|envoy/1.29|cookie|id=dcbd1398;%20t=0|accept-encoding|gzip,%20deflate
r 208286048e6068415286075d6bb32886bf447f018c9ce848172f91d35d055c87a70f2b8825b650c3cbb6b83f0088f2b585ed695095850295cf 297 0 |:method|GET|:scheme|http|:path|/assets/app.3f2a.js|:authority|host0.example.com|user-agent|curl/8.5.0|x-request-2|%95%cf
r 8286049161051d849ffced00d51023f8ac7316017f018c9ce848972f91d35d055c87a70f2b882d5dcfe980ae27ff0088f2b585ed695095990617d683f86cb1 304 0 |:method|GET|:scheme|http|:path|/search?q=a%2520b&page=2|:authority|host2.example.com|user-agent|envoy/1.29|x-request-3|%17%d6%83%f8l%b1
r 020350555487049161051d849ffced00d51023f8ac7316017f018c9ce84b4b97c8e9ae82ae43d30f2b882d5dcfe980ae27ff1f118c34903f20db0cad93ed44c01f 310 0 |:method|PUT|:scheme|https|:path|/search?q=a%2520b&page=2|:authority|host4.example.com|user-agent|envoy/1.29|cookie|id=9da51f5c;%20t=1
r 0207434f4e4e4543548784018c9ce848972f91d35d055c87a70f2b882d5dcfe980ae27ff1f118c349004923e318d9fb51303bf0088f2b585ed695095990466d6b76890 400 0 |:method|CONNECT|:scheme|https|:path|/|:authority|host2.example.com|user-agent|envoy/1.29|cookie|id=1cd9aaa3;%20t=7|x-request-3|f%d6%b7h|accept-encoding|gzip,%20deflate
r 203fe11f8287048662728e84cfef418c9ce848572f91d35d055c87a77a882d5dcfe980ae27ff1f0890ba51d85b140b2010c2d11d0b8e3ef3c44088f2b585ed695095810b8d1817943297b866c9230b90 424 165 |:method|GET|:scheme|https|:path|/healthz|:authority|host1.example.com|user-agent|envoy/1.29|authorization|Bearer%201302a14c7166988c|x-request-0|%8d%18%17%942%97%b8f%c9#%0b|accept-encoding|gzip,%20deflate
r 4207434f4e4e45435486048662728e84cfef418c9ce84b6b97c8e9ae82ae43d3c11f118c349036d351bcd4a3fb513003 299 270 |:method|CONNECT|:scheme|http|:path|/healthz|:authority|host5.example.com|user-agent|envoy/1.29|cookie|id=544b84fa;%20t=0
n
r 3fe1014207434f4e4e4543548704906075998ee162b3c88ff2835264c0d801418c9ce848572f91d35d055c87a77a8825b650c3cbb6b83f4088f2b585ed695095810b032036703901668ff080f3 314 211 |:method|CONNECT|:scheme|https|:path|/api/v1/pods?limit=500|:authority|host1.example.com|user-agent|curl/8.5.0|x-request-0|%03%206p9%01f%8f%f0%80%f3
r 8387048662728e84cfef418c9ce848172f91d35d055c87a77ab4d07f66a281b0dae053fafc087ed4ce6aadf2a7979c89c6bed4b3bdc0882b83fb531149d4ec0801000200a984d61653f960220ae04088f2b585ed6950958309b04d408485f0335788 355 223 |:method|POST|:scheme|https|:path|/healthz|:authority|host0.example.com|user-agent|Mozilla/5.0%20(X11;%20Linux%20x86_64;%20rv:121.0)%20Gecko/20100101%20Firefox/121.0|x-request-1|%b0M@%84%85%f03W%88
r 42035055548684418c9ce84b6b97c8e9ae82ae43d37a882d5dcfe980ae27ff1f0891ba51d85b1491b91c0b850b6394aebed37f4088f2b585ed695095990a3aa890e02759a9e443d990 415 206 |:method|PUT|:scheme|http|:path|/|:authority|host5.example.com|user-agent|envoy/1.29|authorization|Bearer%20d5d616e15afe7945|x-request-3|:%a8%90%e0'Y%a9%e4C%d9|accept-encoding|gzip,%20deflate
r 838684c07a8825b650c3cbb6b83f4088f2b585ed6950958508e426544b2c4c621990 346 208 |:method|POST|:scheme|http|:path|/|:authority|host5.example.com|user-agent|curl/8.5.0|x-request-2|%e4&TK,Lb%19|accept-encoding|gzip,%20deflate
r 4207434f4e4e45435487048e6068415286075d6bb32886bf447f418c9ce84b2b97c8e9ae82ae43d37ab4d07f66a281b0dae053fafc087ed4ce6aadf2a7979c89c6bed4b3bdc0882b83fb531149d4ec0801000200a984d61653f960220ae01f118c349038e36065a645f6a260734088f2b585ed69509599037ee6b190 477 217 |:method|CONNECT|:scheme|https|:path|/assets/app.3f2a.js|:authority|host3.example.com|user-agent|Mozilla/5.0%20(X11;%20Linux%20x86_64;%20rv:121.0)%20Gecko/20100101%20Firefox/121.0|cookie|id=66503432;%20t=6|x-request-3|~%e6%b1|accept-encoding|gzip,%20deflate
r 838784418c9ce84b6b97c8e9ae82ae43d37a8825b650c3cbb6b83f1f0891ba51d85b149657de95b95d001c6c4f462f90 364 157 |:method|POST|:scheme|https|:path|/|:authority|host5.example.com|user-agent|curl/8.5.0|authorization|Bearer%20ff98f5f7006528b2|accept-encoding|gzip,%20deflate
r 420350555487048e6068415286075d6bb32886bf447f418c9ce84b4b97c8e9ae82ae43d3c01f0891ba51d85b141b251c6fb6d3826a5659681f4088f2b585ed695095830aff2ece7803bae97152e3 374 206 |:method|PUT|:scheme|https|:path|/assets/app.3f2a.js|:authority|host4.example.com|user-agent|curl/8.5.0|authorization|Bearer%20a3eab954624f3340|x-request-1|%ff.%cex%03%ba%e9qR%e3
r c087048e6068415286075d6bb32886bf447f418c9ce84b2b97c8e9ae82ae43d37ab4d07f66a281b0dae053fafc087ed4ce6aadf2a7979c89c6bed4b3bdc0882b83fb531149d4ec0801000200a984d61653f960220ae01f118c349008659191bd27da8981ef4088f2b585ed6950959903894c2d 413 217 |:method|PUT|:scheme|https|:path|/assets/app.3f2a.js|:authority|host3.example.com|user-agent|Mozilla/5.0%20(X11;%20Linux%20x86_64;%20rv:121.0)%20Gecko/20100101%20Firefox/121.0|cookie|id=2aed3a8d;%20t=8|x-request-3|%89L-
r 4207434f4e4e4543548684418c9ce848172f91d35d055c87a77a882d5dcfe980ae27ff1f118c34900c2366578ae7da8981af1f0891ba51d85b141bcd15a0863740d47194acff90 420 203 |:method|CONNECT|:scheme|http|:path|/|:authority|host0.example.com|user-agent|envoy/1.29|cookie|id=a1a3f8e6;%20t=4|authorization|Bearer%20a84e411b704bbee3|accept-encoding|gzip,%20deflate
r c086048662728e84cfef418c9ce848572f91d35d055c87a77a8825b650c3cbb6b83f1f0890ba51d85b140825942ecb185f0844e3c04088f2b585ed69509585080ef657ccc1e1ee0a 364 214 |:method|CONNECT|:scheme|http|:path|/healthz|:authority|host1.example.com|user-agent|curl/8.5.0|authorization|Bearer%2010ff17fb19112680|x-request-2|%0e%f6W%cc%c1%e1%ee%0a
r 8286049161051d849ffced00d51023f8ac7316017f418c9ce848972f91d35d055c87a77ab4d07f66a281b0dae053fafc087ed4ce6aadf2a7979c89c6bed4b3bdc0882b83fb531149d4ec0801000200a984d61653f960220ae01f0891ba51d85b1478222819686c9598dd708eff90 443 222 |:method|GET|:scheme|http|:path|/search?q=a%2520b&page=2|:authority|host2.example.com|user-agent|Mozilla/5.0%20(X11;%20Linux%20x86_64;%20rv:121.0)%20Gecko/20100101%20Firefox/121.0|authorization|Bearer%20812e034a3e3b76c7|accept-encoding|gzip,%20deflate
r 4207434f4e4e4543548684418c9ce848172f91d35d055c87a77a8825b650c3cbb6b83f1f0891ba51d85b1495a909248e0064138db2e87f4088f2b585ed695095810672b9fe002bd5 355 206 |:method|CONNECT|:scheme|http|:path|/|:authority|host0.example.com|user-agent|curl/8.5.0|authorization|Bearer%20f4dcdd60ac265371|x-request-0|r%b9%fe%00+%d5";

pub const PART_3: &[u8] = b"\
n
r 3fe103828785418c9ce84b4b97c8e9ae82ae43d37a882d5dcfe980ae27ff1f0891ba51d85b146c4fc72b6f946071a69a249f4088f2b585ed6950958102d2ff90 418 156 |:method|GET|:scheme|https|:path|/index.html|:authority|host4.example.com|user-agent|envoy/1.29|authorization|Bearer%20529bf59ea06444cd|x-request-0|%d2%ff|accept-encoding|gzip,%20deflate
r 42035055548704906075998ee162b3c88ff2835264c0d801c17a8825b650c3cbb6b83f1f118c34903c1285e094bf6a26017f4088f2b585ed69509583027e2a90 415 295 |:method|PUT|:scheme|https|:path|/api/v1/pods?limit=500|:authority|host4.example.com|user-agent|curl/8.5.0|cookie|id=81e181ee;%20t=2|x-request-1|~*|accept-encoding|gzip,%20deflate
r 4207434f4e4e45435487048662728e84cfefc4c31f118c349038428de75973ed44c0e74088f2b585ed6950958502da0290 405 386 |:method|CONNECT|:scheme|https|:path|/healthz|:authority|host4.example.com|user-agent|envoy/1.29|cookie|id=6cea8736;%20t=6|x-request-2|%da%02|accept-encoding|gzip,%20deflate
r c28785418c9ce84b6b97c8e9ae82ae43d3c21f118c3490352806fb6fb9f6a260171f0891ba51d85b140b2069d7df75f195e7de789f4088f2b585ed6950959901b690 471 489 |:method|PUT|:scheme|https|:path|/index.html|:authority|host5.example.com|user-agent|curl/8.5.0|cookie|id=4f0a9596;%20t=2|authorization|Bearer%20130479979ae8988c|x-request-3|%b6|accept-encoding|gzip,%20deflate
r 8286048e6068415286075d6bb32886bf447fc77ab4d07f66a281b0dae053fafc087ed4ce6aadf2a7979c89c6bed4b3bdc0882b83fb531149d4ec0801000200a984d61653f960220ae01f0891ba51d85b146c6fbc11bd216410a57df1ff 380 490 |:method|GET|:scheme|http|:path|/assets/app.3f2a.js|:authority|host4.example.com|user-agent|Mozilla/5.0%20(X11;%20Linux%20x86_64;%20rv:121.0)%20Gecko/20100101%20Firefox/121.0|authorization|Bearer%205a981a8ded22f99a
r 838604906075998ee162b3c88ff2835264c0d801418c9ce848972f91d35d055c87a7bf7f030bcc820915258269e61ceaf990 430 464 |:method|POST|:scheme|http|:path|/api/v1/pods?limit=500|:authority|host2.example.com|user-agent|Mozilla/5.0%20(X11;%20Linux%20x86_64;%20rv:121.0)%20Gecko/20100101%20Firefox/121.0|x-request-2|%cc%82%09%15%25%82i%e6%1c%ea%f9|accept-encoding|gzip,%20deflate
r 838704906075998ee162b3c88ff2835264c0d801418c9ce848172f91d35d055c87a7c11f118c349046491c75d107ed44c0f71f0891ba51d85b147638e5191d7e46da0103239f90 499 478 |:method|POST|:scheme|https|:path|/api/v1/pods?limit=500|:authority|host0.example.com|user-agent|Mozilla/5.0%20(X11;%20Linux%20x86_64;%20rv:121.0)%20Gecko/20100101%20Firefox/121.0|cookie|id=bcd67721;%20t=8|authorization|Bearer%207bbfac79d540c1d6|accept-encoding|gzip,%20deflate
r c58684418c9ce848572f91d35d055c87a7c21f118c34904a374aec6db3f6a260771f0891ba51d85b14148ebd28251be4034266477f 420 491 |:method|CONNECT|:scheme|http|:path|/|:authority|host1.example.com|user-agent|Mozilla/5.0%20(X11;%20Linux%20x86_64;%20rv:121.0)%20Gecko/20100101%20Firefox/121.0|cookie|id=fa7e7b53;%20t=7|authorization|Bearer%202d78f0fa9c0423d7
r 4207434f4e4e45435487048e6068415286075d6bb32886bf447fbf7a882d5dcfe980ae27ff90 317 485 |:method|CONNECT|:scheme|https|:path|/assets/app.3f2a.js|:authority|host1.example.com|user-agent|envoy/1.29|accept-encoding|gzip,%20deflate
r 420350555487048e6068415286075d6bb32886bf447fc1bf90 313 483 |:method|PUT|:scheme|https|:path|/assets/app.3f2a.js|:authority|host1.example.com|user-agent|envoy/1.29|accept-encoding|gzip,%20deflate
r 8287048e6068415286075d6bb32886bf447f418c9ce84b4b97c8e9ae82ae43d37a8825b650c3cbb6b83f1f0891ba51d85b140c6f36195d0b51c7284647ff90 381 482 |:method|GET|:scheme|https|:path|/assets/app.3f2a.js|:authority|host4.example.com|user-agent|curl/8.5.0|authorization|Bearer%201b851f714bbf1ac9|accept-encoding|gzip,%20deflate
r c28684bfbe1f118c34903a4234375997ed44c0cf1f0891ba51d85b149646db8c042372b4023831ff 360 482 |:method|CONNECT|:scheme|http|:path|/|:authority|host4.example.com|user-agent|curl/8.5.0|cookie|id=7cc4a73f;%20t=3|authorization|Bearer%20fd55b0cc5f40c6aa
n
r 3f778387048662728e84cfef418c9ce848972f91d35d055c87a77a8825b650c3cbb6b83f1f0891ba51d85b1476308c6f46cbce3836c6dc9f 311 111 |:method|POST|:scheme|https|:path|/healthz|:authority|host2.example.com|user-agent|curl/8.5.0|authorization|Bearer%207b1aa8b3866a5a5d
r 838785418c9ce84b4b97c8e9ae82ae43d37a882d5dcfe980ae27ff1f0891ba51d85b146c05148c8dd8d991d686ecbf4088f2b585ed69509585037eec7a90 420 98 |:method|POST|:scheme|https|:path|/index.html|:authority|host4.example.com|user-agent|envoy/1.29|authorization|Bearer%2050e2d3a7b3d74a7f|x-request-2|~%ecz|accept-encoding|gzip,%20deflate
r 203f778287049161051d849ffced00d51023f8ac7316017f418c9ce84b4b97c8e9ae82ae43d37a8825b650c3cbb6b83f4088f2b585ed695095810624143b04247d 305 101 |:method|GET|:scheme|https|:path|/search?q=a%2520b&page=2|:authority|host4.example.com|user-agent|curl/8.5.0|x-request-0|$%14;%04$}
r 4207434f4e4e45435486048662728e84cfef418c9ce848572f91d35d055c87a77ab4d07f66a281b0dae053fafc087ed4ce6aadf2a7979c89c6bed4b3bdc0882b83fb531149d4ec0801000200a984d61653f960220ae0 305 112 |:method|CONNECT|:scheme|http|:path|/healthz|:authority|host1.example.com|user-agent|Mozilla/5.0%20(X11;%20Linux%20x86_64;%20rv:121.0)%20Gecko/20100101%20Firefox/121.0
r 8286048662728e84cfef418c9ce848172f91d35d055c87a77a8825b650c3cbb6b83f1f118c34903246db1bcc97ed44c0e74088f2b585ed69509585072e36b5eba3eb42 345 102 |:method|GET|:scheme|http|:path|/healthz|:authority|host0.example.com|user-agent|curl/8.5.0|cookie|id=3c55a83e;%20t=6|x-request-2|.6%b5%eb%a3%ebB
r 4207434f4e4e45435486048662728e84cfef418c9ce84b6b97c8e9ae82ae43d37ab4d07f66a281b0dae053fafc087ed4ce6aadf2a7979c89c6bed4b3bdc0882b83fb531149d4ec0801000200a984d61653f960220ae01f118c349010323846805fb513035f1f0890ba51d85b147c65092465a1140cb8f907 427 112 |:method|CONNECT|:scheme|http|:path|/healthz|:authority|host5.example.com|user-agent|Mozilla/5.0%20(X11;%20Linux%20x86_64;%20rv:121.0)%20Gecko/20100101%20Firefox/121.0|cookie|id=c1d6c40e;%20t=4|authorization|Bearer%209ae1cd342e0369ca
r 20020350555486049161051d849ffced00d51023f8ac7316017f018c9ce84b4b97c8e9ae82ae43d30f2bb4d07f66a281b0dae053fafc087ed4ce6aadf2a7979c89c6bed4b3bdc0882b83fb531149d4ec0801000200a984d61653f960220ae01f118c34901598c4db6f33f6a2600f 369 0 |:method|PUT|:scheme|http|:path|/search?q=a%2520b&page=2|:authority|host4.example.com|user-agent|Mozilla/5.0%20(X11;%20Linux%20x86_64;%20rv:121.0)%20Gecko/20100101%20Firefox/121.0|cookie|id=e3b25583;%20t=1
r 838685018c9ce848172f91d35d055c87a70f2b882d5dcfe980ae27ff1f0891ba51d85b1478616dd780e34f3b1ba113bf0088f2b585ed69509585051789189f59 361 0 |:method|POST|:scheme|http|:path|/index.html|:authority|host0.example.com|user-agent|envoy/1.29|authorization|Bearer%208a157806487b7127|x-request-2|%17%89%18%9fY
r 0207434f4e4e4543548604906075998ee162b3c88ff2835264c0d801018c9ce84b6b97c8e9ae82ae43d30f2b8825b650c3cbb6b83f1f118c34900dd72591d95ffb5130330088f2b585ed6950959908efe728757b53ddfd 364 0 |:method|CONNECT|:scheme|http|:path|/api/v1/pods?limit=500|:authority|host5.example.com|user-agent|curl/8.5.0|cookie|id=a76fd7f9;%20t=3|x-request-3|%ef%e7(u{S%dd%fd
r 020350555487048e6068415286075d6bb32886bf447f018c9ce848172f91d35d055c87a70f2b882d5dcfe980ae27ff1f118c349032d0011942cfda8981af0088f2b585ed6950958501a090 411 0 |:method|PUT|:scheme|https|:path|/assets/app.3f2a.js|:authority|host0.example.com|user-agent|envoy/1.29|cookie|id=3400be13;%20t=4|x-request-2|%a0|accept-encoding|gzip,%20deflate
r 203f77420350555486048662728e84cfef418c9ce848172f91d35d055c87a77a8825b650c3cbb6b83f1f118c349037248fb641b3f6a2606b4088f2b585ed6950959904c3409a94 342 99 |:method|PUT|:scheme|http|:path|/healthz|:authority|host0.example.com|user-agent|curl/8.5.0|cookie|id=5dd95ca3;%20t=4|x-request-3|%c3@%9a%94
r 828784418c9ce848572f91d35d055c87a77a8825b650c3cbb6b83f1f118c34903c26e31b6497ed44c0f790 349 111 |:method|GET|:scheme|https|:path|/|:authority|host1.example.com|user-agent|curl/8.5.0|cookie|id=825ba5cf;%20t=8|accept-encoding|gzip,%20deflate
n
r 838685418c9ce848572f91d35d055c87a77a882d5dcfe980ae27ff1f0891ba51d85b148e4788d3ef372b6cb4e9231f90 373 111 |:method|POST|:scheme|http|:path|/index.html|:authority|host1.example.com|user-agent|envoy/1.29|authorization|Bearer%20bd8c4985f5347cba|accept-encoding|gzip,%20deflate
r 828784418c9ce84b2b97c8e9ae82ae43d3bf4088f2b585ed695095990bfd9bda1ddecfb4bfec92c390 349 224 |:method|GET|:scheme|https|:path|/|:authority|host3.example.com|user-agent|envoy/1.29|x-request-3|%fd%9b%da%1d%de%cf%b4%bf%ec%92%c3|accept-encoding|gzip,%20deflate
r 838684418c9ce848972f91d35d055c87a77ab4d07f66a281b0dae053fafc087ed4ce6aadf2a7979c89c6bed4b3bdc0882b83fb531149d4ec0801000200a984d61653f960220ae04088f2b585ed695095810594df9c8cb490 403 443 |:method|POST|:scheme|http|:path|/|:authority|host2.example.com|user-agent|Mozilla/5.0%20(X11;%20Linux%20x86_64;%20rv:121.0)%20Gecko/20100101%20Firefox/121.0|x-request-0|%94%df%9c%8c%b4|accept-encoding|gzip,%20deflate
r 8287049161051d849ffced00d51023f8ac7316017fc4c37e09c4e0814b3092b1956090 368 495 |:method|GET|:scheme|https|:path|/search?q=a%2520b&page=2|:authority|host1.example.com|user-agent|envoy/1.29|x-request-0|%c4%e0%81K0%92%b1%95`|accept-encoding|gzip,%20deflate
r 8387049161051d849ffced00d51023f8ac7316017f418c9ce84b6b97c8e9ae82ae43d3c14088f2b585ed695095830696d1f5c89ad5 366 603 |:method|POST|:scheme|https|:path|/search?q=a%2520b&page=2|:authority|host5.example.com|user-agent|Mozilla/5.0%20(X11;%20Linux%20x86_64;%20rv:121.0)%20Gecko/20100101%20Firefox/121.0|x-request-1|%96%d1%f5%c8%9a%d5
r 4207434f4e4e4543548684418c9ce848172f91d35d055c87a77a8825b650c3cbb6b83f1f118c34900e58db74221fda89801f1f0891ba51d85b148c8f4832491bc2095d1b6fff4088f2b585ed6950958503802ff0 406 806 |:method|CONNECT|:scheme|http|:path|/|:authority|host0.example.com|user-agent|curl/8.5.0|cookie|id=afb5712a;%20t=0|authorization|Bearer%20bc8dacdb821e7a59|x-request-2|%80/%f0
r 420350555487048e6068415286075d6bb32886bf447fc8cb7f00044d72882a90 360 895 |:method|PUT|:scheme|https|:path|/assets/app.3f2a.js|:authority|host2.example.com|user-agent|envoy/1.29|x-request-2|Mr%88*|accept-encoding|gzip,%20deflate
r 8387048e6068415286075d6bb32886bf447fc2c11f118c34903520c6e472cbf6a2600790 368 895 |:method|POST|:scheme|https|:path|/assets/app.3f2a.js|:authority|host0.example.com|user-agent|curl/8.5.0|cookie|id=4daa6bff;%20t=0|accept-encoding|gzip,%20deflate
r bf8785cbc11f118c34901598dd24822fda8981bf7f0706b78bc2f96d11 348 944 |:method|PUT|:scheme|https|:path|/index.html|:authority|host3.example.com|user-agent|curl/8.5.0|cookie|id=e3b7cd2e;%20t=5|x-request-0|%b7%8b%c2%f9m%11
r c08785c3c21f118c349038e86464b233f6a2606f 299 944 |:method|PUT|:scheme|https|:path|/index.html|:authority|host0.example.com|user-agent|curl/8.5.0|cookie|id=671d3ed3;%20t=5
r c486048e6068415286075d6bb32886bf447fc6c91f118c34903cf0657c2e37f6a2600f1f0890ba51d85b14038003ee10619060682cbb90 498 944 |:method|CONNECT|:scheme|http|:path|/assets/app.3f2a.js|:authority|host5.example.com|user-agent|Mozilla/5.0%20(X11;%20Linux%20x86_64;%20rv:121.0)%20Gecko/20100101%20Firefox/121.0|cookie|id=881f9165;%20t=1|authorization|Bearer%20060096ca1da04137|accept-encoding|gzip,%20deflate
r 8287048e6068415286075d6bb32886bf447fcec91f118c3490341134f4afb9f6a260677f0601bd 411 988 |:method|GET|:scheme|https|:path|/assets/app.3f2a.js|:authority|host1.example.com|user-agent|Mozilla/5.0%20(X11;%20Linux%20x86_64;%20rv:121.0)%20Gecko/20100101%20Firefox/121.0|cookie|id=41248f96;%20t=3|x-request-1|%bd";

pub const PART_4: &[u8] = b"\
n
r 3fe1014207434f4e4e4543548785418c9ce84b6b97c8e9ae82ae43d37ab4d07f66a281b0dae053fafc087ed4ce6aadf2a7979c89c6bed4b3bdc0882b83fb531149d4ec0801000200a984d61653f960220ae04088f2b585ed695095850b0dfa64fab34c7e4305421790 423 225 |:method|CONNECT|:scheme|https|:path|/index.html|:authority|host5.example.com|user-agent|Mozilla/5.0%20(X11;%20Linux%20x86_64;%20rv:121.0)%20Gecko/20100101%20Firefox/121.0|x-request-2|%0d%fad%fa%b3L~C%05B%17|accept-encoding|gzip,%20deflate
r 8387048662728e84cfefc07a882d5dcfe980ae27ff1f118c3490471845185d27da8981df4088f2b585ed695095990bbca3c2dc36db13d853795790 411 160 |:method|POST|:scheme|https|:path|/healthz|:authority|host5.example.com|user-agent|envoy/1.29|cookie|id=bb12b17c;%20t=7|x-request-3|%bc%a3%c2%dc6%db%13%d8SyW|accept-encoding|gzip,%20deflate
r 828704906075998ee162b3c88ff2835264c0d801418c9ce84b4b97c8e9ae82ae43d37a8825b650c3cbb6b83f4088f2b585ed69509585056a8d42323c 304 213 |:method|GET|:scheme|https|:path|/api/v1/pods?limit=500|:authority|host4.example.com|user-agent|curl/8.5.0|x-request-2|j%8dB2<
r 8387048e6068415286075d6bb32886bf447f418c9ce848572f91d35d055c87a77ab4d07f66a281b0dae053fafc087ed4ce6aadf2a7979c89c6bed4b3bdc0882b83fb531149d4ec0801000200a984d61653f960220ae07f010a66adeb405312753ddbd0 367 224 |:method|POST|:scheme|https|:path|/assets/app.3f2a.js|:authority|host1.example.com|user-agent|Mozilla/5.0%20(X11;%20Linux%20x86_64;%20rv:121.0)%20Gecko/20100101%20Firefox/121.0|x-request-2|f%ad%eb@S%12u=%db%d0
r 8386048662728e84cfef418c9ce84b6b97c8e9ae82ae43d3c01f118c34900c2fbc41b62fb513035f1f0891ba51d85b140844e3ecb6e471b836da0bdf4088f2b585ed6950958306472b286c2687 473 161 |:method|POST|:scheme|http|:path|/healthz|:authority|host5.example.com|user-agent|Mozilla/5.0%20(X11;%20Linux%20x86_64;%20rv:121.0)%20Gecko/20100101%20Firefox/121.0|cookie|id=a198ca52;%20t=4|authorization|Bearer%2011269356bb6a5418|x-request-1|G+(l&%87
r 828704906075998ee162b3c88ff2835264c0d801418c9ce84b4b97c8e9ae82ae43d37a8825b650c3cbb6b83f1f0891ba51d85b148e40084d3b236ec7236e383f90 384 219 |:method|GET|:scheme|https|:path|/api/v1/pods?limit=500|:authority|host4.example.com|user-agent|curl/8.5.0|authorization|Bearer%20bd02247d57bd566a|accept-encoding|gzip,%20deflate
r 4207434f4e4e4543548684418c9ce84b2b97c8e9ae82ae43d37a882d5dcfe980ae27ff 238 209 |:method|CONNECT|:scheme|http|:path|/|:authority|host3.example.com|user-agent|envoy/1.29
r 420350555487048e6068415286075d6bb32886bf447f418c9ce848172f91d35d055c87a7c01f118c349008adbcd944cfda89805f 307 212 |:method|PUT|:scheme|https|:path|/assets/app.3f2a.js|:authority|host0.example.com|user-agent|envoy/1.29|cookie|id=2e585e23;%20t=2
r 828784418c9ce84b6b97c8e9ae82ae43d3c11f0891ba51d85b147251165702d01904a074b27f4088f2b585ed695095810a2d3bc3c3a404e851dc04 356 213 |:method|GET|:scheme|https|:path|/|:authority|host5.example.com|user-agent|envoy/1.29|authorization|Bearer%206f2ef614030f07ed|x-request-0|-;%c3%c3%a4%04%e8Q%dc%04
r 838784bf7ab4d07f66a281b0dae053fafc087ed4ce6aadf2a7979c89c6bed4b3bdc0882b83fb531149d4ec0801000200a984d61653f960220ae04088f2b585ed6950959909e25e5d0a978d22e262 348 217 |:method|POST|:scheme|https|:path|/|:authority|host5.example.com|user-agent|Mozilla/5.0%20(X11;%20Linux%20x86_64;%20rv:121.0)%20Gecko/20100101%20Firefox/121.0|x-request-3|%e2^]%0a%97%8d%22%e2b
r 828685418c9ce84b4b97c8e9ae82ae43d3c01f118c349009e948dcacc7f6a260071f0891ba51d85b14138e9481091e6dc9238dc73f 426 223 |:method|GET|:scheme|http|:path|/index.html|:authority|host4.example.com|user-agent|Mozilla/5.0%20(X11;%20Linux%20x86_64;%20rv:121.0)%20Gecko/20100101%20Firefox/121.0|cookie|id=28fc5f3b;%20t=0|authorization|Bearer%20267ec11c856dbb66
r 838704906075998ee162b3c88ff2835264c0d801418c9ce84b6b97c8e9ae82ae43d37a8825b650c3cbb6b83f90 317 222 |:method|POST|:scheme|https|:path|/api/v1/pods?limit=500|:authority|host5.example.com|user-agent|curl/8.5.0|accept-encoding|gzip,%20deflate
n
r 4e30767676767676767676767676767676767676767676767676767676767676767676767676767676767676767676767676920f0a087676767676767676a0 229 87 |:status|vvvvvvvvvvvvvvvvvvvvvvvvvvvvvvvvvvvvvvvvvvvvvvvv|accept-ranges||content-disposition|vvvvvvvv|cookie|
r 1f272b767676767676767676767676767676767676767676767676767676767676767676767676767676767676768c0f0e1e76767676767676767676767676767676767676767676767676767676767695 236 87 |server|vvvvvvvvvvvvvvvvvvvvvvvvvvvvvvvvvvvvvvvvvvv|:status|400|content-location|vvvvvvvvvvvvvvvvvvvvvvvvvvvvvv|age|
r 5b0176b60f05207676767676767676767676767676767676767676767676767676767676767676ae4a4976767676767676767676767676767676767676767676767676767676767676767676767676767676767676767676767676767676767676767676767676767676767676767676767676bb 366 248 |content-language|v|server||access-control-allow-origin|vvvvvvvvvvvvvvvvvvvvvvvvvvvvvvvv|location||:status|vvvvvvvvvvvvvvvvvvvvvvvvvvvvvvvvvvvvvvvvvvvvvvvvvvvvvvvvvvvvvvvvvvvvvvvvv|vary|
r 3f0900026e310176b000026e30227676767676767676767676767676767676767676767676767676767676767676767689 195 0 |n1|v|proxy-authenticate||n0|vvvvvvvvvvvvvvvvvvvvvvvvvvvvvvvvvv|:status|204
r 5042767676767676767676767676767676767676767676767676767676767676767676767676767676767676767676767676767676767676767676767676767676767676a41f150d76767676767676767676767676bc 239 0 |accept-encoding|vvvvvvvvvvvvvvvvvvvvvvvvvvvvvvvvvvvvvvvvvvvvvvvvvvvvvvvvvvvvvvvvvv|expires||expires|vvvvvvvvvvvvv|via|
r 40026e310f7676767676767676767676767676768e 91 0 |n1|vvvvvvvvvvvvvvv|:status|500
r 10026e323c7676767676767676767676767676767676767676767676767676767676767676767676767676767676767676767676767676767676767676767676769440026e3318767676767676767676767676767676767676767676767676937a0b76767676767676767676768140026e313e767676767676767676767676767676767676767676767676767676767676767676767676767676767676767676767676767676767676767676767676767682 482 0 |n2|vvvvvvvvvvvvvvvvvvvvvvvvvvvvvvvvvvvvvvvvvvvvvvvvvvvvvvvvvvvv|access-control-allow-origin||n3|vvvvvvvvvvvvvvvvvvvvvvvv|accept||user-agent|vvvvvvvvvvv|:authority||n1|vvvvvvvvvvvvvvvvvvvvvvvvvvvvvvvvvvvvvvvvvvvvvvvvvvvvvvvvvvvvvv|:method|GET
r 3fe11f40026e312f76767676767676767676767676767676767676767676767676767676767676767676767676767676767676767676769e73067676767676769d643776767676767676767676767676767676767676767676767676767676767676767676767676767676767676767676767676767676767676854942767676767676767676767676767676767676767676767676767676767676767676767676767676767676767676767676767676767676767676767676767676767676b8 523 325 |n1|vvvvvvvvvvvvvvvvvvvvvvvvvvvvvvvvvvvvvvvvvvvvvvv|content-range||referer|vvvvvv|content-location||expires|vvvvvvvvvvvvvvvvvvvvvvvvvvvvvvvvvvvvvvvvvvvvvvvvvvvvvvv|:path|/index.html|:status|vvvvvvvvvvvvvvvvvvvvvvvvvvvvvvvvvvvvvvvvvvvvvvvvvvvvvvvvvvvvvvvvvv|strict-transport-security|
n
r 160776767676767676b543267676767676767676767676767676767676767676767676767676767676767676767676767676a6 202 77 |:scheme|vvvvvvv|retry-after||:method|vvvvvvvvvvvvvvvvvvvvvvvvvvvvvvvvvvvvvv|host|
r 00026e32477676767676767676767676767676767676767676767676767676767676767676767676767676767676767676767676767676767676767676767676767676767676767676767676b700026e340276768d4f0576767676768e 318 128 |n2|vvvvvvvvvvvvvvvvvvvvvvvvvvvvvvvvvvvvvvvvvvvvvvvvvvvvvvvvvvvvvvvvvvvvvvv|set-cookie||n4|vv|:status|404|accept-charset|vvvvv|:status|500
r 583f767676767676767676767676767676767676767676767676767676767676767676767676767676767676767676767676767676767676767676767676767676890f0927767676767676767676767676767676767676767676767676767676767676767676767676767676bc00026e30357676767676767676767676767676767676767676767676767676767676767676767676767676767676767676767676767676767676a71f0d0d767676767676767676767676769b 503 236 |cache-control|vvvvvvvvvvvvvvvvvvvvvvvvvvvvvvvvvvvvvvvvvvvvvvvvvvvvvvvvvvvvvvv|:status|204|cache-control|vvvvvvvvvvvvvvvvvvvvvvvvvvvvvvvvvvvvvvv|via||n0|vvvvvvvvvvvvvvvvvvvvvvvvvvvvvvvvvvvvvvvvvvvvvvvvvvvvv|if-match||content-length|vvvvvvvvvvvvv|content-language|
r 0f2816767676767676767676767676767676767676767676769b1f122c7676767676767676767676767676767676767676767676767676767676767676767676767676767676767676bc61357676767676767676767676767676767676767676767676767676767676767676767676767676767676767676767676767676767676991f110276769d 455 325 |set-cookie|vvvvvvvvvvvvvvvvvvvvvv|content-language||date|vvvvvvvvvvvvvvvvvvvvvvvvvvvvvvvvvvvvvvvvvvvv|via||date|vvvvvvvvvvvvvvvvvvvvvvvvvvvvvvvvvvvvvvvvvvvvvvvvvvvvv|content-disposition||cookie|vv|content-location|
r 40026e304076767676767676767676767676767676767676767676767676767676767676767676767676767676767676767676767676767676767676767676767676767676b4 137 423 |n0|vvvvvvvvvvvvvvvvvvvvvvvvvvvvvvvvvvvvvvvvvvvvvvvvvvvvvvvvvvvvvvvv|refresh|
r 3f4500026e34217676767676767676767676767676767676767676767676767676767676767676768810026e32487676767676767676767676767676767676767676767676767676767676767676767676767676767676767676767676767676767676767676767676767676767676767676767676769d5f2576767676767676767676767676767676767676767676767676767676767676767676767676b640026e34267676767676767676767676767676767676767676767676767676767676767676767676767676b7 496 72 |n4|vvvvvvvvvvvvvvvvvvvvvvvvvvvvvvvvv|:status|200|n2|vvvvvvvvvvvvvvvvvvvvvvvvvvvvvvvvvvvvvvvvvvvvvvvvvvvvvvvvvvvvvvvvvvvvvvvv|content-location||content-type|vvvvvvvvvvvvvvvvvvvvvvvvvvvvvvvvvvvvv|server||n4|vvvvvvvvvvvvvvvvvvvvvvvvvvvvvvvvvvvvvv|set-cookie|
r 0f064f767676767676767676767676767676767676767676767676767676767676767676767676767676767676767676767676767676767676767676767676767676767676767676767676767676767676768500026e310b7676767676767676767676a9620e76767676767676767676767676768c 344 50 |age|vvvvvvvvvvvvvvvvvvvvvvvvvvvvvvvvvvvvvvvvvvvvvvvvvvvvvvvvvvvvvvvvvvvvvvvvvvvvvvv|:path|/index.html|n1|vvvvvvvvvvv|if-none-match||etag|vvvvvvvvvvvvvv|:status|400
r 40026e331d7676767676767676767676767676767676767676767676767676767676b440026e302f7676767676767676767676767676767676767676767676767676767676767676767676767676767676767676767676a6 219 81 |n3|vvvvvvvvvvvvvvvvvvvvvvvvvvvvv|refresh||n0|vvvvvvvvvvvvvvvvvvvvvvvvvvvvvvvvvvvvvvvvvvvvvvv|host|";

pub const PART_5: &[u8] = b"\
n
r 40026e33247676767676767676767676767676767676767676767676767676767676767676767676769b 118 70 |n3|vvvvvvvvvvvvvvvvvvvvvvvvvvvvvvvvvvvv|content-language|
r 3f452000026e302a767676767676767676767676767676767676767676767676767676767676767676767676767676767676a640026e342e76767676767676767676767676767676767676767676767676767676767676767676767676767676767676767676895d327676767676767676767676767676767676767676767676767676767676767676767676767676767676767676767676767676ae00026e341e767676767676767676767676767676767676767676767676767676767676a2 472 0 |n0|vvvvvvvvvvvvvvvvvvvvvvvvvvvvvvvvvvvvvvvvvv|host||n4|vvvvvvvvvvvvvvvvvvvvvvvvvvvvvvvvvvvvvvvvvvvvvv|:status|204|content-location|vvvvvvvvvvvvvvvvvvvvvvvvvvvvvvvvvvvvvvvvvvvvvvvvvv|location||n4|vvvvvvvvvvvvvvvvvvvvvvvvvvvvvv|etag|
r 0f0022767676767676767676767676767676767676767676767676767676767676767676769f 124 0 |accept-charset|vvvvvvvvvvvvvvvvvvvvvvvvvvvvvvvvvv|content-type|
r 40026e334b767676767676767676767676767676767676767676767676767676767676767676767676767676767676767676767676767676767676767676767676767676767676767676767676767676847d41767676767676767676767676767676767676767676767676767676767676767676767676767676767676767676767676767676767676767676767676767676767681 302 0 |n3|vvvvvvvvvvvvvvvvvvvvvvvvvvvvvvvvvvvvvvvvvvvvvvvvvvvvvvvvvvvvvvvvvvvvvvvvvvv|:path|/|www-authenticate|vvvvvvvvvvvvvvvvvvvvvvvvvvvvvvvvvvvvvvvvvvvvvvvvvvvvvvvvvvvvvvvvv|:authority|
r 40026e331676767676767676767676767676767676767676767676ae00026e3015767676767676767676767676767676767676767676ae40026e3415767676767676767676767676767676767676767676ac 291 0 |n3|vvvvvvvvvvvvvvvvvvvvvv|location||n0|vvvvvvvvvvvvvvvvvvvvv|location||n4|vvvvvvvvvvvvvvvvvvvvv|last-modified|
r 203f0900026e311f76767676767676767676767676767676767676767676767676767676767676a900026e33457676767676767676767676767676767676767676767676767676767676767676767676767676767676767676767676767676767676767676767676767676767676767676769c10026e3328767676767676767676767676767676767676767676767676767676767676767676767676767676769b1f2835767676767676767676767676767676767676767676767676767676767676767676767676767676767676767676767676767676767686 519 0 |n1|vvvvvvvvvvvvvvvvvvvvvvvvvvvvvvv|if-none-match||n3|vvvvvvvvvvvvvvvvvvvvvvvvvvvvvvvvvvvvvvvvvvvvvvvvvvvvvvvvvvvvvvvvvvvvv|content-length||n3|vvvvvvvvvvvvvvvvvvvvvvvvvvvvvvvvvvvvvvvv|content-language||set-cookie|vvvvvvvvvvvvvvvvvvvvvvvvvvvvvvvvvvvvvvvvvvvvvvvvvvvvv|:scheme|http
r 3f09651e7676767676767676767676767676767676767676767676767676767676768d5a117676767676767676767676767676767676b5 216 0 |from|vvvvvvvvvvvvvvvvvvvvvvvvvvvvvv|:status|404|content-encoding|vvvvvvvvvvvvvvvvv|retry-after|
r 434876767676767676767676767676767676767676767676767676767676767676767676767676767676767676767676767676767676767676767676767676767676767676767676767692600b76767676767676767676768a 247 0 |:method|vvvvvvvvvvvvvvvvvvvvvvvvvvvvvvvvvvvvvvvvvvvvvvvvvvvvvvvvvvvvvvvvvvvvvvvv|accept-ranges||cookie|vvvvvvvvvvv|:status|206
n
r 00026e330091 81 0 |n3||accept-language|
r 40026e320f7676767676767676767676767676768140026e300a7676767676767676767681 177 93 |n2|vvvvvvvvvvvvvvv|:authority||n0|vvvvvvvvvv|:authority|
r 522676767676767676767676767676767676767676767676767676767676767676767676767676768153037676769d00026e300e7676767676767676767676767676961f2d017694 394 217 |accept-ranges|vvvvvvvvvvvvvvvvvvvvvvvvvvvvvvvvvvvvvv|:authority||accept|vvv|content-location||n0|vvvvvvvvvvvvvv|allow||via|v|access-control-allow-origin|
r 40026e3326767676767676767676767676767676767676767676767676767676767676767676767676767682523e7676767676767676767676767676767676767676767676767676767676767676767676767676767676767676767676767676767676767676767676767676ba 263 396 |n3|vvvvvvvvvvvvvvvvvvvvvvvvvvvvvvvvvvvvvv|:method|GET|accept-ranges|vvvvvvvvvvvvvvvvvvvvvvvvvvvvvvvvvvvvvvvvvvvvvvvvvvvvvvvvvvvvvv|user-agent|
r 203f09450e7676767676767676767676767676961f0319767676767676767676767676767676767676767676767676769b6f117676767676767676767676767676767676830f261a7676767676767676767676767676767676767676767676767676ae 419 0 |:path|vvvvvvvvvvvvvv|allow||accept-ranges|vvvvvvvvvvvvvvvvvvvvvvvvv|content-language||max-forwards|vvvvvvvvvvvvvvvvv|:method|POST|retry-after|vvvvvvvvvvvvvvvvvvvvvvvvvv|location|
r 40026e344b767676767676767676767676767676767676767676767676767676767676767676767676767676767676767676767676767676767676767676767676767676767676767676767676767676b700026e30047676767699 240 0 |n4|vvvvvvvvvvvvvvvvvvvvvvvvvvvvvvvvvvvvvvvvvvvvvvvvvvvvvvvvvvvvvvvvvvvvvvvvvvv|set-cookie||n0|vvvv|content-disposition|
r 5e39767676767676767676767676767676767676767676767676767676767676767676767676767676767676767676767676767676767676767676984f0d76767676767676767676767676a6 242 0 |content-range|vvvvvvvvvvvvvvvvvvvvvvvvvvvvvvvvvvvvvvvvvvvvvvvvvvvvvvvvv|cache-control||accept-charset|vvvvvvvvvvvvv|host|
r 0f000176a5 83 0 |accept-charset|v|from|
n
r 0f001e767676767676767676767676767676767676767676767676767676767676a6 112 0 |accept-charset|vvvvvvvvvvvvvvvvvvvvvvvvvvvvvv|host|
r 1f143a76767676767676767676767676767676767676767676767676767676767676767676767676767676767676767676767676767676767676767676a6434b767676767676767676767676767676767676767676767676767676767676767676767676767676767676767676767676767676767676767676767676767676767676767676767676767676b0 296 114 |expect|vvvvvvvvvvvvvvvvvvvvvvvvvvvvvvvvvvvvvvvvvvvvvvvvvvvvvvvvvv|host||:method|vvvvvvvvvvvvvvvvvvvvvvvvvvvvvvvvvvvvvvvvvvvvvvvvvvvvvvvvvvvvvvvvvvvvvvvvvvv|proxy-authenticate|
r 7d16767676767676767676767676767676767676767676769d 118 184 |www-authenticate|vvvvvvvvvvvvvvvvvvvvvv|content-location|
r 432b76767676767676767676767676767676767676767676767676767676767676767676767676767676767676b340026e303e76767676767676767676767676767676767676767676767676767676767676767676767676767676767676767676767676767676767676767676767676768a 259 362 |:method|vvvvvvvvvvvvvvvvvvvvvvvvvvvvvvvvvvvvvvvvvvv|referer||n0|vvvvvvvvvvvvvvvvvvvvvvvvvvvvvvvvvvvvvvvvvvvvvvvvvvvvvvvvvvvvvv|:status|206
r 3f2140026e330576767676768e53487676767676767676767676767676767676767676767676767676767676767676767676767676767676767676767676767676767676767676767676767676767676767676767676769e090176b6 314 0 |n3|vvvvv|:status|500|accept|vvvvvvvvvvvvvvvvvvvvvvvvvvvvvvvvvvvvvvvvvvvvvvvvvvvvvvvvvvvvvvvvvvvvvvvv|content-range||:status|v|server|
r 10026e34147676767676767676767676767676767676767676b740026e3405767676767692 180 39 |n4|vvvvvvvvvvvvvvvvvvvv|set-cookie||n4|vvvvv|accept-ranges|
r 40026e31417676767676767676767676767676767676767676767676767676767676767676767676767676767676767676767676767676767676767676767676767676767676b04f417676767676767676767676767676767676767676767676767676767676767676767676767676767676767676767676767676767676767676767676767676767676bd 308 0 |n1|vvvvvvvvvvvvvvvvvvvvvvvvvvvvvvvvvvvvvvvvvvvvvvvvvvvvvvvvvvvvvvvvv|proxy-authenticate||accept-charset|vvvvvvvvvvvvvvvvvvvvvvvvvvvvvvvvvvvvvvvvvvvvvvvvvvvvvvvvvvvvvvvvv|www-authenticate|
r 3f213f451f0f4b7676767676767676767676767676767676767676767676767676767676767676767676767676767676767676767676767676767676767676767676767676767676767676767676767676769e1f1a1176767676767676767676767676767676769440026e30087676767676767676a90f091a767676767676767676767676767676767676767676767676767690 504 42 |content-range|vvvvvvvvvvvvvvvvvvvvvvvvvvvvvvvvvvvvvvvvvvvvvvvvvvvvvvvvvvvvvvvvvvvvvvvvvvv|content-range||if-none-match|vvvvvvvvvvvvvvvvv|access-control-allow-origin||n0|vvvvvvvv|if-none-match||cache-control|vvvvvvvvvvvvvvvvvvvvvvvvvv|accept-encoding|gzip,%20deflate
n
r 5b05767676767693 91 53 |content-language|vvvvv|accept|
r 3f453f0900026e322a7676767676767676767676767676767676767676767676767676767676767676767676767676767676769a 124 0 |n2|vvvvvvvvvvvvvvvvvvvvvvvvvvvvvvvvvvvvvvvvvv|content-encoding|
r 5e0f7676767676767676767676767676768b0f2d2c7676767676767676767676767676767676767676767676767676767676767676767676767676767676767676bd0f13137676767676767676767676767676767676767684 322 0 |content-range|vvvvvvvvvvvvvvv|:status|304|via|vvvvvvvvvvvvvvvvvvvvvvvvvvvvvvvvvvvvvvvvvvvv|www-authenticate||etag|vvvvvvvvvvvvvvvvvvv|:path|/
r 3f453f4510026e341d7676767676767676767676767676767676767676767676767676767676ad 99 0 |n4|vvvvvvvvvvvvvvvvvvvvvvvvvvvvv|link|
r 174176767676767676767676767676767676767676767676767676767676767676767676767676767676767676767676767676767676767676767676767676767676768c1f0a4176767676767676767676767676767676767676767676767676767676767676767676767676767676767676767676767676767676767676767676767676767676769340026e304676767676767676767676767676767676767676767676767676767676767676767676767676767676767676767676767676767676767676767676767676767676767676767676a7 444 0 |:scheme|vvvvvvvvvvvvvvvvvvvvvvvvvvvvvvvvvvvvvvvvvvvvvvvvvvvvvvvvvvvvvvvvv|:status|400|content-disposition|vvvvvvvvvvvvvvvvvvvvvvvvvvvvvvvvvvvvvvvvvvvvvvvvvvvvvvvvvvvvvvvvv|accept||n0|vvvvvvvvvvvvvvvvvvvvvvvvvvvvvvvvvvvvvvvvvvvvvvvvvvvvvvvvvvvvvvvvvvvvvv|if-match|
r 40026e32087676767676767676960f062376767676767676767676767676767676767676767676767676767676767676767676768c1f054b76767676767676767676767676767676767676767676767676767676767676767676767676767676767676767676767676767676767676767676767676767676767676767676767676767690 385 42 |n2|vvvvvvvv|allow||age|vvvvvvvvvvvvvvvvvvvvvvvvvvvvvvvvvvv|:status|400|access-control-allow-origin|vvvvvvvvvvvvvvvvvvvvvvvvvvvvvvvvvvvvvvvvvvvvvvvvvvvvvvvvvvvvvvvvvvvvvvvvvvv|accept-encoding|gzip,%20deflate
r 3fe11f3fe11f581f7676767676767676767676767676767676767676767676767676767676767690 136 118 |cache-control|vvvvvvvvvvvvvvvvvvvvvvvvvvvvvvv|accept-encoding|gzip,%20deflate
r 00026e304a76767676767676767676767676767676767676767676767676767676767676767676767676767676767676767676767676767676767676767676767676767676767676767676767676769f732c7676767676767676767676767676767676767676767676767676767676767676767676767676767676767676a440026e3203767676aa 351 238 |n0|vvvvvvvvvvvvvvvvvvvvvvvvvvvvvvvvvvvvvvvvvvvvvvvvvvvvvvvvvvvvvvvvvvvvvvvvvv|content-type||referer|vvvvvvvvvvvvvvvvvvvvvvvvvvvvvvvvvvvvvvvvvvvv|expires||n2|vvv|if-range|";

pub const PART_6: &[u8] = b"\
n
r 2014277676767676767676767676767676767676767676767676767676767676767676767676767676768800026e310276769a0f0f447676767676767676767676767676767676767676767676767676767676767676767676767676767676767676767676767676767676767676767676767676767676767676bd6c4a7676767676767676767676767676767676767676767676767676767676767676767676767676767676767676767676767676767676767676767676767676767676767676767676767676b9 531 0 |:path|vvvvvvvvvvvvvvvvvvvvvvvvvvvvvvvvvvvvvvv|:status|200|n1|vv|content-encoding||content-range|vvvvvvvvvvvvvvvvvvvvvvvvvvvvvvvvvvvvvvvvvvvvvvvvvvvvvvvvvvvvvvvvvvvv|www-authenticate||last-modified|vvvvvvvvvvvvvvvvvvvvvvvvvvvvvvvvvvvvvvvvvvvvvvvvvvvvvvvvvvvvvvvvvvvvvvvvvv|transfer-encoding|
r 40026e322d767676767676767676767676767676767676767676767676767676767676767676767676767676767676767676a540026e3203767676a5 188 0 |n2|vvvvvvvvvvvvvvvvvvvvvvvvvvvvvvvvvvvvvvvvvvvvv|from||n2|vvv|from|
r 3f213f2140026e30237676767676767676767676767676767676767676767676767676767676767676767676a810026e31357676767676767676767676767676767676767676767676767676767676767676767676767676767676767676767676767676767676aa1d3476767676767676767676767676767676767676767676767676767676767676767676767676767676767676767676767676767676ad00026e323b7676767676767676767676767676767676767676767676767676767676767676767676767676767676767676767676767676767676767676767676a8 514 0 |n0|vvvvvvvvvvvvvvvvvvvvvvvvvvvvvvvvvvv|if-modified-since||n1|vvvvvvvvvvvvvvvvvvvvvvvvvvvvvvvvvvvvvvvvvvvvvvvvvvvvv|if-range||:status|vvvvvvvvvvvvvvvvvvvvvvvvvvvvvvvvvvvvvvvvvvvvvvvvvvvv|link||n2|vvvvvvvvvvvvvvvvvvvvvvvvvvvvvvvvvvvvvvvvvvvvvvvvvvvvvvvvvvv|if-modified-since|
r 3f093f4500026e333776767676767676767676767676767676767676767676767676767676767676767676767676767676767676767676767676767676767676bc0f0f21767676767676767676767676767676767676767676767676767676767676767676ab1f170f7676767676767676767676767676769510026e33387676767676767676767676767676767676767676767676767676767676767676767676767676767676767676767676767676767676767676a1 465 0 |n3|vvvvvvvvvvvvvvvvvvvvvvvvvvvvvvvvvvvvvvvvvvvvvvvvvvvvvvv|via||content-range|vvvvvvvvvvvvvvvvvvvvvvvvvvvvvvvvv|if-unmodified-since||host|vvvvvvvvvvvvvvv|age||n3|vvvvvvvvvvvvvvvvvvvvvvvvvvvvvvvvvvvvvvvvvvvvvvvvvvvvvvvv|date|
r 3f453fe11f10026e340c767676767676767676767676975d1676767676767676767676767676767676767676767676b900026e322b76767676767676767676767676767676767676767676767676767676767676767676767676767676767676a910026e332c7676767676767676767676767676767676767676767676767676767676767676767676767676767676767676bd 458 70 |n4|vvvvvvvvvvvv|authorization||content-location|vvvvvvvvvvvvvvvvvvvvvv|transfer-encoding||n2|vvvvvvvvvvvvvvvvvvvvvvvvvvvvvvvvvvvvvvvvvvv|if-none-match||n3|vvvvvvvvvvvvvvvvvvvvvvvvvvvvvvvvvvvvvvvvvvvv|www-authenticate|
r 00026e342f7676767676767676767676767676767676767676767676767676767676767676767676767676767676767676767676b80f2830767676767676767676767676767676767676767676767676767676767676767676767676767676767676767676767676b65833767676767676767676767676767676767676767676767676767676767676767676767676767676767676767676767676767676b6 400 166 |n4|vvvvvvvvvvvvvvvvvvvvvvvvvvvvvvvvvvvvvvvvvvvvvvv|strict-transport-security||set-cookie|vvvvvvvvvvvvvvvvvvvvvvvvvvvvvvvvvvvvvvvvvvvvvvvv|server||cache-control|vvvvvvvvvvvvvvvvvvvvvvvvvvvvvvvvvvvvvvvvvvvvvvvvvvv|server|
r 473c76767676767676767676767676767676767676767676767676767676767676767676767676767676767676767676767676767676767676767676767696 136 265 |:scheme|vvvvvvvvvvvvvvvvvvvvvvvvvvvvvvvvvvvvvvvvvvvvvvvvvvvvvvvvvvvv|allow|
r 1f011376767676767676767676767676767676767676aa5a49767676767676767676767676767676767676767676767676767676767676767676767676767676767676767676767676767676767676767676767676767676767676767676767676768f 273 386 |accept-encoding|vvvvvvvvvvvvvvvvvvv|if-range||content-encoding|vvvvvvvvvvvvvvvvvvvvvvvvvvvvvvvvvvvvvvvvvvvvvvvvvvvvvvvvvvvvvvvvvvvvvvvvv|accept-charset|
n
r 3f09673876767676767676767676767676767676767676767676767676767676767676767676767676767676767676767676767676767676767676769e0f05177676767676767676767676767676767676767676767676a74c0b767676767676767676767692 358 0 |if-match|vvvvvvvvvvvvvvvvvvvvvvvvvvvvvvvvvvvvvvvvvvvvvvvvvvvvvvvv|content-range||access-control-allow-origin|vvvvvvvvvvvvvvvvvvvvvvv|if-match||:status|vvvvvvvvvvv|accept-ranges|
r 3f213f4540026e331f767676767676767676767676767676767676767676767676767676767676768b522e76767676767676767676767676767676767676767676767676767676767676767676767676767676767676767676bc00026e3322767676767676767676767676767676767676767676767676767676767676767676769850327676767676767676767676767676767676767676767676767676767676767676767676767676767676767676767676767676ba 485 97 |n3|vvvvvvvvvvvvvvvvvvvvvvvvvvvvvvv|:status|304|accept-ranges|vvvvvvvvvvvvvvvvvvvvvvvvvvvvvvvvvvvvvvvvvvvvvv|via||n3|vvvvvvvvvvvvvvvvvvvvvvvvvvvvvvvvvv|cache-control||accept-encoding|vvvvvvvvvvvvvvvvvvvvvvvvvvvvvvvvvvvvvvvvvvvvvvvvvv|user-agent|
r 6d10767676767676767676767676767676768140026e333176767676767676767676767676767676767676767676767676767676767676767676767676767676767676767676767676a5 213 83 |link|vvvvvvvvvvvvvvvv|:authority||n3|vvvvvvvvvvvvvvvvvvvvvvvvvvvvvvvvvvvvvvvvvvvvvvvvv|from|
r 40026e304d7676767676767676767676767676767676767676767676767676767676767676767676767676767676767676767676767676767676767676767676767676767676767676767676767676767676a000026e33377676767676767676767676767676767676767676767676767676767676767676767676767676767676767676767676767676767676767698 283 0 |n0|vvvvvvvvvvvvvvvvvvvvvvvvvvvvvvvvvvvvvvvvvvvvvvvvvvvvvvvvvvvvvvvvvvvvvvvvvvvvv|cookie||n3|vvvvvvvvvvvvvvvvvvvvvvvvvvvvvvvvvvvvvvvvvvvvvvvvvvvvvvv|cache-control|
r 544976767676767676767676767676767676767676767676767676767676767676767676767676767676767676767676767676767676767676767676767676767676767676767676767676890230767676767676767676767676767676767676767676767676767676767676767676767676767676767676767676767676984730767676767676767676767676767676767676767676767676767676767676767676767676767676767676767676767676bc753c767676767676767676767676767676767676767676767676767676767676767676767676767676767676767676767676767676767676767676767676bb 567 0 |access-control-allow-origin|vvvvvvvvvvvvvvvvvvvvvvvvvvvvvvvvvvvvvvvvvvvvvvvvvvvvvvvvvvvvvvvvvvvvvvvvv|:status|204|:method|vvvvvvvvvvvvvvvvvvvvvvvvvvvvvvvvvvvvvvvvvvvvvvvv|cache-control||:scheme|vvvvvvvvvvvvvvvvvvvvvvvvvvvvvvvvvvvvvvvvvvvvvvvv|via||retry-after|vvvvvvvvvvvvvvvvvvvvvvvvvvvvvvvvvvvvvvvvvvvvvvvvvvvvvvvvvvvv|vary|
r 00026e304f76767676767676767676767676767676767676767676767676767676767676767676767676767676767676767676767676767676767676767676767676767676767676767676767676767676767676ab40026e341176767676767676767676767676767676769e10026e31107676767676767676767676767676767686 353 51 |n0|vvvvvvvvvvvvvvvvvvvvvvvvvvvvvvvvvvvvvvvvvvvvvvvvvvvvvvvvvvvvvvvvvvvvvvvvvvvvvvv|if-unmodified-since||n4|vvvvvvvvvvvvvvvvv|content-range||n1|vvvvvvvvvvvvvvvv|:scheme|http
r 40026e31027676b800026e304976767676767676767676767676767676767676767676767676767676767676767676767676767676767676767676767676767676767676767676767676767676767676767676767676bc030b7676767676767676767676b110026e3438767676767676767676767676767676767676767676767676767676767676767676767676767676767676767676767676767676767676767681 468 87 |n1|vv|strict-transport-security||n0|vvvvvvvvvvvvvvvvvvvvvvvvvvvvvvvvvvvvvvvvvvvvvvvvvvvvvvvvvvvvvvvvvvvvvvvvv|via||:method|vvvvvvvvvvv|proxy-authorization||n4|vvvvvvvvvvvvvvvvvvvvvvvvvvvvvvvvvvvvvvvvvvvvvvvvvvvvvvvv|:authority|
r 3f453f2110026e342b76767676767676767676767676767676767676767676767676767676767676767676767676767676767676b4 116 36 |n4|vvvvvvvvvvvvvvvvvvvvvvvvvvvvvvvvvvvvvvvvvvv|refresh|
n
r 10026e322876767676767676767676767676767676767676767676767676767676767676767676767676767676a940026e313a76767676767676767676767676767676767676767676767676767676767676767676767676767676767676767676767676767676767676767676961f2e427676767676767676767676767676767676767676767676767676767676767676767676767676767676767676767676767676767676767676767676767676767676769a5e1c7676767676767676767676767676767676767676767676767676767696 520 165 |n2|vvvvvvvvvvvvvvvvvvvvvvvvvvvvvvvvvvvvvvvv|if-none-match||n1|vvvvvvvvvvvvvvvvvvvvvvvvvvvvvvvvvvvvvvvvvvvvvvvvvvvvvvvvvv|allow||www-authenticate|vvvvvvvvvvvvvvvvvvvvvvvvvvvvvvvvvvvvvvvvvvvvvvvvvvvvvvvvvvvvvvvvvv|content-encoding||content-range|vvvvvvvvvvvvvvvvvvvvvvvvvvvv|allow|
r 0f241376767676767676767676767676767676767676ba00026e320976767676767676767690 203 165 |referer|vvvvvvvvvvvvvvvvvvv|user-agent||n2|vvvvvvvvv|accept-encoding|gzip,%20deflate
r 603176767676767676767676767676767676767676767676767676767676767676767676767676767676767676767676767676835116767676767676767676767676767676767676767676768c00026e342276767676767676767676767676767676767676767676767676767676767676767676bb 345 321 |cookie|vvvvvvvvvvvvvvvvvvvvvvvvvvvvvvvvvvvvvvvvvvvvvvvvv|:method|POST|accept-language|vvvvvvvvvvvvvvvvvvvvvv|:status|400|n4|vvvvvvvvvvvvvvvvvvvvvvvvvvvvvvvvvv|vary|
r 3f213fe11f0f0b14767676767676767676767676767676767676767687 112 0 |content-encoding|vvvvvvvvvvvvvvvvvvvv|:scheme|https
r 68247676767676767676767676767676767676767676767676767676767676767676767676768700026e340276768a48087676767676767676a0 292 132 |if-modified-since|vvvvvvvvvvvvvvvvvvvvvvvvvvvvvvvvvvvv|:scheme|https|n4|vv|:status|206|:status|vvvvvvvv|cookie|
r 00026e304b767676767676767676767676767676767676767676767676767676767676767676767676767676767676767676767676767676767676767676767676767676767676767676767676767676871f060f7676767676767676767676767676768640026e3345767676767676767676767676767676767676767676767676767676767676767676767676767676767676767676767676767676767676767676767676767676767676767676a8423176767676767676767676767676767676767676767676767676767676767676767676767676767676767676767676767676a2 522 323 |n0|vvvvvvvvvvvvvvvvvvvvvvvvvvvvvvvvvvvvvvvvvvvvvvvvvvvvvvvvvvvvvvvvvvvvvvvvvvv|:scheme|https|age|vvvvvvvvvvvvvvv|:scheme|http|n3|vvvvvvvvvvvvvvvvvvvvvvvvvvvvvvvvvvvvvvvvvvvvvvvvvvvvvvvvvvvvvvvvvvvvv|if-modified-since||:method|vvvvvvvvvvvvvvvvvvvvvvvvvvvvvvvvvvvvvvvvvvvvvvvvv|etag|
r 2000026e30157676767676767676767676767676767676767676768e 97 0 |n0|vvvvvvvvvvvvvvvvvvvvv|:status|500
r 10026e3003767676861f030f767676767676767676767676767676a9 185 0 |n0|vvv|:scheme|http|accept-ranges|vvvvvvvvvvvvvvv|if-none-match|";

pub const PART_7: &[u8] = b"\
n
r 1f2e367676767676767676767676767676767676767676767676767676767676767676767676767676767676767676767676767676767676769640026e3115767676767676767676767676767676767676767676bb712d767676767676767676767676767676767676767676767676767676767676767676767676767676767676767676b140026e334b76767676767676767676767676767676767676767676767676767676767676767676767676767676767676767676767676767676767676767676767676767676767676767676767676767682 528 260 |www-authenticate|vvvvvvvvvvvvvvvvvvvvvvvvvvvvvvvvvvvvvvvvvvvvvvvvvvvvvv|allow||n1|vvvvvvvvvvvvvvvvvvvvv|vary||proxy-authorization|vvvvvvvvvvvvvvvvvvvvvvvvvvvvvvvvvvvvvvvvvvvvv|proxy-authorization||n3|vvvvvvvvvvvvvvvvvvvvvvvvvvvvvvvvvvvvvvvvvvvvvvvvvvvvvvvvvvvvvvvvvvvvvvvvvvv|:method|GET
r 3fe11f1f270e76767676767676767676767676768b40026e341e767676767676767676767676767676767676767676767676767676767676b40f090d76767676767676767676767676b8 312 324 |server|vvvvvvvvvvvvvv|:status|304|n4|vvvvvvvvvvvvvvvvvvvvvvvvvvvvvv|refresh||cache-control|vvvvvvvvvvvvv|strict-transport-security|
r 3f0940026e332176767676767676767676767676767676767676767676767676767676767676767690 127 0 |n3|vvvvvvvvvvvvvvvvvvvvvvvvvvvvvvvvv|accept-encoding|gzip,%20deflate
r 3f213f211f250f767676767676767676767676767676a9 99 0 |refresh|vvvvvvvvvvvvvvv|if-none-match|
r 3f093f0900026e3429767676767676767676767676767676767676767676767676767676767676767676767676767676767688 117 0 |n4|vvvvvvvvvvvvvvvvvvvvvvvvvvvvvvvvvvvvvvvvv|:status|200
r 3f453f0940026e321a767676767676767676767676767676767676767676767676767694 119 0 |n2|vvvvvvvvvvvvvvvvvvvvvvvvvv|access-control-allow-origin|
r 40026e33417676767676767676767676767676767676767676767676767676767676767676767676767676767676767676767676767676767676767676767676767676767676a040026e324876767676767676767676767676767676767676767676767676767676767676767676767676767676767676767676767676767676767676767676767676767676767676767676767691 290 0 |n3|vvvvvvvvvvvvvvvvvvvvvvvvvvvvvvvvvvvvvvvvvvvvvvvvvvvvvvvvvvvvvvvvv|cookie||n2|vvvvvvvvvvvvvvvvvvvvvvvvvvvvvvvvvvvvvvvvvvvvvvvvvvvvvvvvvvvvvvvvvvvvvvvv|accept-language|
r 574c76767676767676767676767676767676767676767676767676767676767676767676767676767676767676767676767676767676767676767676767676767676767676767676767676767676b86a127676767676767676767676767676767676768c 278 0 |authorization|vvvvvvvvvvvvvvvvvvvvvvvvvvvvvvvvvvvvvvvvvvvvvvvvvvvvvvvvvvvvvvvvvvvvvvvvvvvv|strict-transport-security||if-range|vvvvvvvvvvvvvvvvvv|:status|400
n
r 3f0940026e31427676767676767676767676767676767676767676767676767676767676767676767676767676767676767676767676767676767676767676767676767676767676768840026e3048767676767676767676767676767676767676767676767676767676767676767676767676767676767676767676767676767676767676767676767676767676767676767676767676ad 284 0 |n1|vvvvvvvvvvvvvvvvvvvvvvvvvvvvvvvvvvvvvvvvvvvvvvvvvvvvvvvvvvvvvvvvvv|:status|200|n0|vvvvvvvvvvvvvvvvvvvvvvvvvvvvvvvvvvvvvvvvvvvvvvvvvvvvvvvvvvvvvvvvvvvvvvvv|link|
r 10026e320176b57c2a767676767676767676767676767676767676767676767676767676767676767676767676767676767676ad6d117676767676767676767676767676767676b1 295 0 |n2|v|retry-after||via|vvvvvvvvvvvvvvvvvvvvvvvvvvvvvvvvvvvvvvvvvv|link||link|vvvvvvvvvvvvvvvvv|proxy-authorization|
r 1f1a277676767676767676767676767676767676767676767676767676767676767676767676767676769540026e31487676767676767676767676767676767676767676767676767676767676767676767676767676767676767676767676767676767676767676767676767676767676767676767676768140026e312e76767676767676767676767676767676767676767676767676767676767676767676767676767676767676767676810f2d1e767676767676767676767676767676767676767676767676767676767676ae 494 0 |if-none-match|vvvvvvvvvvvvvvvvvvvvvvvvvvvvvvvvvvvvvvv|age||n1|vvvvvvvvvvvvvvvvvvvvvvvvvvvvvvvvvvvvvvvvvvvvvvvvvvvvvvvvvvvvvvvvvvvvvvvv|:authority||n1|vvvvvvvvvvvvvvvvvvvvvvvvvvvvvvvvvvvvvvvvvvvvvv|:authority||via|vvvvvvvvvvvvvvvvvvvvvvvvvvvvvv|location|
r 00026e323c7676767676767676767676767676767676767676767676767676767676767676767676767676767676767676767676767676767676767676767676768c00026e3424767676767676767676767676767676767676767676767676767676767676767676767676a010026e3230767676767676767676767676767676767676767676767676767676767676767676767676767676767676767676767676bb 362 0 |n2|vvvvvvvvvvvvvvvvvvvvvvvvvvvvvvvvvvvvvvvvvvvvvvvvvvvvvvvvvvvv|:status|400|n4|vvvvvvvvvvvvvvvvvvvvvvvvvvvvvvvvvvvv|cookie||n2|vvvvvvvvvvvvvvvvvvvvvvvvvvvvvvvvvvvvvvvvvvvvvvvv|vary|
r 40026e313776767676767676767676767676767676767676767676767676767676767676767676767676767676767676767676767676767676767676840f02347676767676767676767676767676767676767676767676767676767676767676767676767676767676767676767676767676767684483b7676767676767676767676767676767676767676767676767676767676767676767676767676767676767676767676767676767676767676767676bb 398 0 |n1|vvvvvvvvvvvvvvvvvvvvvvvvvvvvvvvvvvvvvvvvvvvvvvvvvvvvvvv|:path|/|accept-language|vvvvvvvvvvvvvvvvvvvvvvvvvvvvvvvvvvvvvvvvvvvvvvvvvvvv|:path|/|:status|vvvvvvvvvvvvvvvvvvvvvvvvvvvvvvvvvvvvvvvvvvvvvvvvvvvvvvvvvvv|vary|
r 40026e32097676767676767676769b10026e314e7676767676767676767676767676767676767676767676767676767676767676767676767676767676767676767676767676767676767676767676767676767676767676767676767676767676768d00026e313e7676767676767676767676767676767676767676767676767676767676767676767676767676767676767676767676767676767676767676767676767676a5474a7676767676767676767676767676767676767676767676767676767676767676767676767676767676767676767676767676767676767676767676767676767676767676767676767676b1 541 0 |n2|vvvvvvvvv|content-language||n1|vvvvvvvvvvvvvvvvvvvvvvvvvvvvvvvvvvvvvvvvvvvvvvvvvvvvvvvvvvvvvvvvvvvvvvvvvvvvvv|:status|404|n1|vvvvvvvvvvvvvvvvvvvvvvvvvvvvvvvvvvvvvvvvvvvvvvvvvvvvvvvvvvvvvv|from||:scheme|vvvvvvvvvvvvvvvvvvvvvvvvvvvvvvvvvvvvvvvvvvvvvvvvvvvvvvvvvvvvvvvvvvvvvvvvvv|proxy-authorization|
r 00026e322e7676767676767676767676767676767676767676767676767676767676767676767676767676767676767676767682 122 0 |n2|vvvvvvvvvvvvvvvvvvvvvvvvvvvvvvvvvvvvvvvvvvvvvv|:method|GET
r 3f093f4540026e31167676767676767676767676767676767676767676767682713b7676767676767676767676767676767676767676767676767676767676767676767676767676767676767676767676767676767676767676767676b340026e31077676767676767689 330 41 |n1|vvvvvvvvvvvvvvvvvvvvvv|:method|GET|proxy-authorization|vvvvvvvvvvvvvvvvvvvvvvvvvvvvvvvvvvvvvvvvvvvvvvvvvvvvvvvvvvv|referer||n1|vvvvvvv|:status|204
n
r 1f20117676767676767676767676767676767676ae4f1b7676767676767676767676767676767676767676767676767676768540026e3143767676767676767676767676767676767676767676767676767676767676767676767676767676767676767676767676767676767676767676767676767676767676768a0f20327676767676767676767676767676767676767676767676767676767676767676767676767676767676767676767676767676b1 510 174 |max-forwards|vvvvvvvvvvvvvvvvv|location||accept-charset|vvvvvvvvvvvvvvvvvvvvvvvvvvv|:path|/index.html|n1|vvvvvvvvvvvvvvvvvvvvvvvvvvvvvvvvvvvvvvvvvvvvvvvvvvvvvvvvvvvvvvvvvvv|:status|206|max-forwards|vvvvvvvvvvvvvvvvvvvvvvvvvvvvvvvvvvvvvvvvvvvvvvvvvv|proxy-authorization|
r 4f3a7676767676767676767676767676767676767676767676767676767676767676767676767676767676767676767676767676767676767676767695 139 278 |accept-charset|vvvvvvvvvvvvvvvvvvvvvvvvvvvvvvvvvvvvvvvvvvvvvvvvvvvvvvvvvv|age|
r 3fe11f2040026e301a7676767676767676767676767676767676767676767676767676b3 99 0 |n0|vvvvvvvvvvvvvvvvvvvvvvvvvv|referer|
r 10026e34447676767676767676767676767676767676767676767676767676767676767676767676767676767676767676767676767676767676767676767676767676767676767676a9493476767676767676767676767676767676767676767676767676767676767676767676767676767676767676767676767676767676ad40026e342376767676767676767676767676767676767676767676767676767676767676767676769240026e32207676767676767676767676767676767676767676767676767676767676767676a0 492 0 |n4|vvvvvvvvvvvvvvvvvvvvvvvvvvvvvvvvvvvvvvvvvvvvvvvvvvvvvvvvvvvvvvvvvvvv|if-none-match||:status|vvvvvvvvvvvvvvvvvvvvvvvvvvvvvvvvvvvvvvvvvvvvvvvvvvvv|link||n4|vvvvvvvvvvvvvvvvvvvvvvvvvvvvvvvvvvv|accept-ranges||n2|vvvvvvvvvvvvvvvvvvvvvvvvvvvvvvvv|cookie|
r 40026e342476767676767676767676767676767676767676767676767676767676767676767676767684 108 0 |n4|vvvvvvvvvvvvvvvvvvvvvvvvvvvvvvvvvvvv|:path|/
r 40026e304076767676767676767676767676767676767676767676767676767676767676767676767676767676767676767676767676767676767676767676767676767676a100026e330e7676767676767676767676767676910f18277676767676767676767676767676767676767676767676767676767676767676767676767676768440026e33437676767676767676767676767676767676767676767676767676767676767676767676767676767676767676767676767676767676767676767676767676767676767697 492 0 |n0|vvvvvvvvvvvvvvvvvvvvvvvvvvvvvvvvvvvvvvvvvvvvvvvvvvvvvvvvvvvvvvvv|date||n3|vvvvvvvvvvvvvv|accept-language||if-match|vvvvvvvvvvvvvvvvvvvvvvvvvvvvvvvvvvvvvvv|:path|/|n3|vvvvvvvvvvvvvvvvvvvvvvvvvvvvvvvvvvvvvvvvvvvvvvvvvvvvvvvvvvvvvvvvvvv|authorization|
r 3fe11f3fe11f00026e331b767676767676767676767676767676767676767676767676767676930f2339767676767676767676767676767676767676767676767676767676767676767676767676767676767676767676767676767676767676767676961f050d7676767676767676767676767693 340 0 |n3|vvvvvvvvvvvvvvvvvvvvvvvvvvv|accept||range|vvvvvvvvvvvvvvvvvvvvvvvvvvvvvvvvvvvvvvvvvvvvvvvvvvvvvvvvv|allow||access-control-allow-origin|vvvvvvvvvvvvv|accept|
r 00026e333c767676767676767676767676767676767676767676767676767676767676767676767676767676767676767676767676767676767676767676767676b340026e3422767676767676767676767676767676767676767676767676767676767676767676768700026e323476767676767676767676767676767676767676767676767676767676767676767676767676767676767676767676767676767676b2 368 68 |n3|vvvvvvvvvvvvvvvvvvvvvvvvvvvvvvvvvvvvvvvvvvvvvvvvvvvvvvvvvvvv|referer||n4|vvvvvvvvvvvvvvvvvvvvvvvvvvvvvvvvvv|:scheme|https|n2|vvvvvvvvvvvvvvvvvvvvvvvvvvvvvvvvvvvvvvvvvvvvvvvvvvvv|range|";

pub const PART_8: &[u8] = b"\
n
f c087049161051d849ffced00d5201023f8ac7316017f418c9ce848572f91d35d055c87a77a8825b650c3cbb6b83f1f0890ba51d85b140c64005a1b72bcc907210990 0 1
n
f 838604906075998ee162b3c88ff2835264c0d801418c9ce848572f91d35d055c87a77ab4d07f66a281b0dae053fafc087ed4ce6aadf2a7 55 3
n
f c08684418c9ce848572f91d35d055c87a77a882d5dcfe980ae27ff1f0891ba51d85b146c246656451be37dc7df723f4088f2b585ed6950958505faed1465c60f 0 1
n
f c086048662728e84cfef418c9ce848172f91d35d055c87a77a882d5dcfe980ae27ff1f118c349034dbc48c120fed44c01f4088f2b585ed695095850359b8b420 0 1
n
f 5f6d0b76767676767676767676769710026e344f767676767676767676767676767676767676767676767676767676767676767676767676767676767676767676767676767676767676767676767676767676767676767676767676767676767676769d 100 3
n
f 838704906075998ee162b3c88ff2835264c0d801418c9ce848972f91d35d055c87a7bf1f118c34903ef84528c20fb513039f1f0891ba51d85b14719148178ad09c0331ca127f90ffffffffffff 34 1
n
f 4207434f4e4e4543548704906075998ee162b3c88ff2835264c0d801418c9ce848972f91d35d055c87a77a8825b650c3cbb6b83f4088f2b585ed695095 61 3
n
r 42035055548704906075998ee162b3c88ff2835264c0d801418c9ce84b4b97c8e9ae82ae43d37a8825b650c3cbb6b83f 256 153 |:method|PUT|:scheme|https|:path|/api/v1/pods?limit=500|:authority|host4.example.com|user-agent|curl/8.5.0
f 4207434f4e4e45435486048e6068415286075d6bbeb32886bf447f418c9ce84b2b97c8e9ae82ae43d3c01f0891ba51d85b1418da65f723091b95a75b947f90 27 1
n
r 4207434f4e4e4543548604906075998ee162b3c88ff2835264c0d801418c9ce84b6b97c8e9ae82ae43d37a8825b650c3cbb6b83f 259 157 |:method|CONNECT|:scheme|http|:path|/api/v1/pods?limit=500|:authority|host5.example.com|user-agent|curl/8.5.0
f 5f8287048e6068415286075d6bb32886bf447f418c9ce84b4b97c8e9ae82ae43d37a882d5dcfe980ae27ff4088f2b585ed6950958104a784fbff 1 4
n
f 828685418c9ce84b2b97c8e9ae82ae43d37a882d5dcfe980ae27ff4088f2b585ed 33 3
n
f 741876767676 6 3
n
f 420350555487048e6068415286075d6bb32886bf447f418c9ce84b4b97c8e9ae82ae43d37ab4d07f66a281b0dae053fa7ffc087ed4ce6aadf2a7979c89c6bed4b3bdc0882b83fb531149d4ec0801000200a984d61653f960220ae01f118c34903ce3857db1b5f6a260734088f2b585ed695095850b4c30cc160346e88765eea8 37 4
n
r 42035055548684418c9ce84b4b97c8e9ae82ae43d37a8825b650c3cbb6b83f 234 153 |:method|PUT|:scheme|http|:path|/|:authority|host4.example.com|user-agent|curl/8.5.0
f 2080838604906075998ee162b3c88ff2835264c0d801418c9ce848972f91d35d055c87a7bf1f118c34900c32940cb64fb513033f1f0891ba51d85b1469b7c0f4a38df7df1cad343f4088f2b585ed69509583084797f1cf2ad9614790 1 1
n
f 0c31767676767676767676767676767676767676767676767676767676767676767676767676767676767676767676767676768310026e3433767676767676767676767676767676767676767676767676767676767676767676767676767676767676767676767676767676a0ffffffffffff 114 2
n
r 828784418c9ce848972f91d35d055c87a77a8825b650c3cbb6b83f 235 111 |:method|GET|:scheme|https|:path|/|:authority|host2.example.com|user-agent|curl/8.5.0
f 3fe11f3fffff038286049161051d849ffced00d51023f8ac7316017f418c9ce84b2b97c8e9ae82ae43d37ab4d07f66a281b0dae053fafc087ed4ce6aadf2a7979c89c6bed4b3bdc0882b83fb531149d4ec0801000200a984d61653f960220ae01f0890ba51d85b14682d91a280812b6418631f 6 5
n
r 420350555487048e6068415286075d6bb32886bf447f418c9ce84b6b97c8e9ae82ae43d37a8825b650c3cbb6b83f 253 153 |:method|PUT|:scheme|https|:path|/assets/app.3f2a.js|:authority|host5.example.com|user-agent|curl/8.5.0
f 2080838604906075998ee162b3c88ff2835264c0d801418c9ce84b4b97c8e9ae82ae43d37ab4d07f66a281b0dae053fafc087ed4ce6aadf2a7979c89c6bed4b3bdc0882b83fb531149d4ec0801000200a984d61653f960220ae01f118c34900d9644dc8d87ed44c0ef1f0891ba51d85b148e38dd7252bc32ba513d20bf90 1 1
n
f 7d477676767676767676767676767676767676767676767676767676767676767676767676767676767676767676767676767676767676767676767676767676767676767676767676b710026e312776767676767676767680767676767676767676767676767676767676767676767676767676767676926709767676767676767676b85d2a76767676767676767676767676767676767676767676767676767676767676767676767676767676767695 119 4
n
f 3f2140026e303e7676767676767676767676767676767676767676767676767676767676767676767676767676767676767676767676767676767676767676767676767676b01f0113767676767676767676767676767676767676769910026e333176767676767676767676767676767676767676767676767676767676767676767676767676767676767676767676767676ab40026e310c767676767676767676767676bc20 166 6
n
f 8287049161051d849ffced00d5100023f8ac7316017f418c9ce84b4b97c8e9ae82ae43d37a882d5dcfe980ae27ff1f0891ba51d85b14136d8c0dcac9256e5090727f90 3 4
n
f 42035055548684418c9ce84b4b97c8e9ae82ae43d37a8825b650c3cbb6b83f1f0891ba51d85b14080ad3e0786d7f82414b2c6dff 33 4
n
f 4207434f4e4e45435487049161051d849ffced00d51023f8ac7316017f418c9ce848572f91d35d055c87a7c01f118c34901040011b80749f6a2606bf4088f2b585ed69509585026a07 43 1
n
f 8286048e6068415286075d6bb328 14 3
n
r 828604906075998ee162b3c88ff2835264c0d801418c9ce848172f91d35d055c87a77a8825b650c3cbb6b83f 255 111 |:method|GET|:scheme|http|:path|/api/v1/pods?limit=500|:authority|host0.example.com|user-agent|curl/8.5.0
f 8387049161051d849ffced00d51023f8ac7316017f418c9ce84b2b97c8e9ae82ae4300d3bf90 22 4
n
f 8287048662728e84cfef418c9ce84b4b97c8e9ae82ae43d3bf4088f2b585ed69509581055888a8ff177390 24 1
n
f 3fe21f1f224c76767676767676767676767676767676767676767676767676767676767676767676767676767676767676767676767676767676767676767676767676767676767676767676767676767676961f18217676767676767676767676767676767676767676767676767676767676767676769c 2 5
n
r 420350555486049161051d849ffced00d51023f8ac7316017f418c9ce84b4b97c8e9ae82ae43d37a882d5dcfe980ae27ff 255 153 |:method|PUT|:scheme|http|:path|/search?q=a%2520b&page=2|:authority|host4.example.com|user-agent|envoy/1.29
f 8387049161051d849ffced00d51023f8ac7316017f418c9ce848972f91d35d055c87a77a8825b650c3cbb6b83f4d118c34903432904d01dfb51303bf 60 3
n
r 8286048662728e84cfef418c9ce848172f91d35d055c87a77a882d5dcfe980ae27ff 241 111 |:method|GET|:scheme|http|:path|/healthz|:authority|host0.example.com|user-agent|envoy/1.29
f 20804207434f4e4e45435486048e6068415286075d6bb32886bf447f418c9ce84b6b97c8e9ae82ae43d37a8825b650c3cbb6b83f4088f2b585ed6950958104220ba794 1 1
n
r 838684418c9ce848172f91d35d055c87a77a8825b650c3cbb6b83f 235 111 |:method|POST|:scheme|http|:path|/|:authority|host0.example.com|user-agent|curl/8.5.0
f 7fff207134767676767676767676767676767676767676767676767676767676767676767676767676767676767676767676767676767676769210026e310a76767676767676767676a740026e3329767676767676767676767676767676767676767676767676767676767676767676767676767676767684 2 1
n
f 838784418c9ce84b4b97c8e9ae82ae43d37ab4d07f66a281b0dae053fafc087ed4ce6aadf2a7979c89c6bed4b3bdc0882b83fb531149d4ec0801000200a984d61653f960220ae01f11a2349009b205d2b81fb51300bf4088f2b585ed69509599099a0dd44ed720c9add0 106 3
n
f 3fe21f838785418c9ce84b6b97c8e9ae82ae43d37ab4d07f66a281b0dae053fafc087ed4ce6aadf2a7979c89c6bed4b3bdc0882b83fb531149d4ec0801000200a984d61653f960220ae01f118c34904ac85e048db9f6a2606b 2 5
n
f 00026e340a76767676767676767676854618767676767676767676767676767676767676767676767676bd00026e31 47 3
n
f c08784418c9ce848172f91d35d055c87a77a8825b650c3cbb6b83f1f118c349034e12420de73ed44c0cf1f0891ba51d85b1469d095b0848c8da91e7e36bf4088f2b585ed6950958101bb3fe21f 0 1
n
r 42035055548784418c9ce848172f91d35d055c87a77a8825b650c3cbb6b83f 235 153 |:method|PUT|:scheme|https|:path|/|:authority|host0.example.com|user-agent|curl/8.5.0
f 4207434f4e4e45435486049161051d849ffced00d51023f8ac7316017f418c9ce848572f91d35d055c87a77a882d5dcfe980ae27ff1f118c349036290247a51fda89803f3fe21f 68 6
n
r 8287048e6068415286075d6bb32886bf447f418c9ce84b4b97c8e9ae82ae43d37a8825b650c3cbb6b83f 253 111 |:method|GET|:scheme|https|:path|/assets/app.3f2a.js|:authority|host4.example.com|user-agent|curl/8.5.0
f 208040026e320b7676767676767676767676a9674776767676767676767676767676767676767676767676767676767676767676767676767676767676767676767676767676767676767676767676767676767676767676767676769d1f20247676767676767676767676767676767676767676767676767676767676767676767676769b40026e3141767676767676767676767676767676767676767676767676767676767676767676767676767676767676767676767676767676767676767676767676767676767691 1 1
n
f 420350555487049161051d849ffced00d51023f8ac7316017fc07a882d5dcfe980ae27ff1f118c34903acb431086ffda89803f9041821c 25 1
n
r 4207434f4e4e45435487048e6068415286075d6bb32886bf447f418c9ce84b2b97c8e9ae82ae43d37a8825b650c3cbb6b83f 257 157 |:method|CONNECT|:scheme|https|:path|/assets/app.3f2a.js|:authority|host3.example.com|user-agent|curl/8.5.0
f 5f838684418c9ce848172f91d35d055c87a77a882d5dcfe980ae27ff1f118c3490085211b6a30fda89801f4088f2b585ed6950959906f848d8158cce 7 1
n
f 8387049161051d849ffced00d51023f8ac7316017f418c9ce84b2b97c8e9ae82ae43d37a8825b650c3cbb6b83f1f0891ba51d85b14725015f95b6e4200a2132cff4088 67 3
n
r 8387048e6068415286075d6bb32886bf447f418c9ce848172f91d35d055c87a77ab4d07f66a281b0dae053fafc087ed4ce6aadf2a7979c89c6bed4b3bdc0882b83fb531149d4ec0801000200a984d61653f960220ae0 314 171 |:method|POST|:scheme|https|:path|/assets/app.3f2a.js|:authority|host0.example.com|user-agent|Mozilla/5.0%20(X11;%20Linux%20x86_64;%20rv:121.0)%20Gecko/20100101%20Firefox/121.0
f 7fff8286048e6068415286075d6bb32886bf447fbf7a882d5dcfe980ae27ff1f118c34903ecb6079e765fb51300390 4 1";

pub const PART_9: &[u8] = b"\
n
f 8387048662728e84cfefbf7a8825b650c3cbb6b83f1f118c349034e38e8db24bf6a2606f1f0890ba51d85b14748d0481115b95901180e113 10 1
n
f 828785418c9ce848572f91d35d055c87a77a8825b650c3cbb6b83f1f118c3490372caeb2428fed44c0e74088c7b585ed6950958305a0c01313e0 43 4
n
f 4203 2 3
n
f 8387049161051d849ffced00 12 3
n
f 4207be434f4e4e45435487048e6068415286075d6bb32886bf447f418c9ce848172f91d35d055c87a77a882d5dcfe980ae27ff4088f2b585ed6950958301a190 10 4
n
f 8287048662728e84cfef418c9ce848972f91d35d055c87a77a8825b650c3cbb6b83f1f118c34903ae46295c6c73da2607b4088f2b585ed695095990a8f10b2b9de16fe4bb516 36 4
n
r 8386048662728e84cfef418c9ce848572f91d35d055c87a77a8825b650c3cbb6b83f 242 111 |:method|POST|:scheme|http|:path|/healthz|:authority|host1.example.com|user-agent|curl/8.5.0
f 20804207434f4e4e45435486048e6068415286075d6bb32886bf447f418c9ce84b4b97c8e9ae82ae43d37ab4d07f66a281b0dae053fafc087ed4ce6aadf2a7979c89c6bed4b3bdc0882b83fb531149d4ec0801000200a984d61653f960220ae01f118c34903aeba5134fb9f6a260771f0890ba51d85b140b4390729640140165f9474088f2b585ed69509585016d90 1 1
n
f 0f073f0776767676767676aa40026e330a7676767676767676767698 28 3
n
f 8286048662728e84cfef418c9ce84b6b97c8e9ae82ae43d37a8825b650c3cbb6b83f1f 35 3
n
f 8286048662728e84cfef418c9ce848972f91d35d055c87a77a8825b60050c3cbb6b83f1f118c34903af49246e32cfda898014088f2b585ed695095850bbd80b78d50a5ebc42a4726 25 4
n
f 55317676767676 7 3
n
r 8287049161051d849ffced00d51023f8ac7316017f418c9ce84b6b97c8e9ae82ae43d37a882d5dcfe980ae27ff 256 111 |:method|GET|:scheme|https|:path|/search?q=a%2520b&page=2|:authority|host5.example.com|user-agent|envoy/1.29
f 6f2576767676767676767676767676767676767676767676767676767676767676767676767676a8174f767676767676767676767676767676767676767676767676767676767676767676767676767676767676767676767676767676767676767676767676767676767676767676767676767676767676768e40026e333c7676767676767676767676767676767676767676 147 3
n
r 4207434f4e4e45435487049161051d849ffced00d51023f8ac7316017f418c9ce84b6b97c8e9ae82ae43d37a8825b650c3cbb6b83f 260 157 |:method|CONNECT|:scheme|https|:path|/search?q=a%2520b&page=2|:authority|host5.example.com|user-agent|curl/8.5.0
f 20802000026e320776767676767676b0 1 1
n
f 3f213f0978457676767676767676767676767676767676767676767676767676767676767676767676767676767676767676767676767676767676767676767676767676767676767676769b173b76767676767676767676767676767676767676767676767676767676767676767676767676767676767676767676767676767676 130 3
n
f 42035055548704906075998ee162b3c88ff2835264c0d801418c9ce84b2b97c8ffe9ae82ae43d3c0 25 4
n
r 420350555487048662728e84cfef418c9ce848172f91d35d055c87a77a882d5dcfe980ae27ff 242 153 |:method|PUT|:scheme|https|:path|/healthz|:authority|host0.example.com|user-agent|envoy/1.29
f 7fff828604906075998ee162b3c88ff2835264c0d801418c9ce848572f91d35d055c87a77ab4d07f66a281b0dae053fafc087ed4ce6aadf2a7979c89c6bed4b3bdc0882b83fb531149d4ec0801000200a984d61653f960220ae04088f2b585ed6950958509070668952216f28b96 4 1
n
f 3fe11f3fffff0310026e340b7676767676767676767676a840026e341476767676767676767676767676767676767676769040026e300676767676767687 6 5
n
f 4207434f4e4e4543548685418c9ce84b4b97c8e9ae82ae43d37ab4d07f66a281b0dae053fafc087ed4ce6aadf2a7979c89c6bed4b3bdc0882b83fb531149d4ec080100ff0200a984d61653f960220ae04088f2b585ed6950959901f8 26 4
n
r 838704906075998ee162b3c88ff2835264c0d801418c9ce84b4b97c8e9ae82ae43d37a8825b650c3cbb6b83f 257 111 |:method|POST|:scheme|https|:path|/api/v1/pods?limit=500|:authority|host4.example.com|user-agent|curl/8.5.0
f 3fe21f40026e312f76767676767676767676767676767676767676767676767676767676767676767676767676767676767676767676769d 2 5
n
f 4207434f4e4e45435486049161051d849ffced00d51023f8ac7316017f418c9ce848972f91d35d 39 3
n
f 3fe11f3f2110026e324b76 11 3
n
f c087048e6068be415286075d6bb32886bf447f418c9ce848972f91d35d055c87a7bf1f0891ba51d85b147c802bee4af3418df0b2097f 0 1
n
r 420350555487049161051d849ffced00d51023f8ac7316017f418c9ce84b2b97c8e9ae82ae43d37ab4d07f66a281b0dae053fafc087ed4ce6aadf2a7979c89c6bed4b3bdc0882b83fb531149d4ec0801000200a984d61653f960220ae0 316 213 |:method|PUT|:scheme|https|:path|/search?q=a%2520b&page=2|:authority|host3.example.com|user-agent|Mozilla/5.0%20(X11;%20Linux%20x86_64;%20rv:121.0)%20Gecko/20100101%20Firefox/121.0
f 2080838684418c9ce848572f91d35d055c87a77a882d5dcfe980ae27ff90 1 1
n
f 5f42035055548784418c9ce84b4b97c8e9ae82ae43d3c01f118c34903cec72b924ad7da89819 38 3
n
f 0f0c027676850f 7 3
n
f 0b027676981f0f2576767676767676767676767676767676767676767676767676767676767676767676767676970084ffffffff00 47 4
n
f 828685418c9ce848972f91d35d055c87a7bf1f118c34903a36638c9293ed44c0e71f0890ba51d85b14009c084ad806fca423851f4088f2b585ed69509599042b75a90c900f 17 1
n
r 420350555486049161051d849ffced00d51023f8ac7316017f418c9ce848172f91d35d055c87a77a8825b650c3cbb6b83f 255 153 |:method|PUT|:scheme|http|:path|/search?q=a%2520b&page=2|:authority|host0.example.com|user-agent|curl/8.5.0
f 8387048e6068415286075d6bb32886bf447fbf7ab4d07f66a281b0dae053fafc087ed4ce6aadf2a7979c89c6bed4b3bdc0882b83fb531149d4ec0801000200a984d61653f960220ae04088f2b585ed 79 3
n
f 8287049161051d849ffced00d51023f8ac7316017f418c9ce84b6b97c8e9ae82ae43d37ab4d07f66a281b0dae053fafc087ed4ce6aadf2a7979c89c6bed4b3bdc0882b83fb531149d4ec0801000200a984d61653f960220ae04088f2b585ed6950958509aa1730b3ac82e60e113fe21f 109 6
n
f c086048e6068415286075d6bb32886bf447f418c9ce84b6b97 0 1
n
f 53267676767676767676767676767676767676767676767676767676767676767676767676767676ae71217676767676767676767676767676767676767676767676767676767676767676 75 3
n
f c087048662728e84cfef418c9ce84b6b97c8e9ae82ae43d3bf1f0891ba51d85b147c0268921196c236da75e93f3fe21f 0 1
n
r 8286048662728e84cfef418c9ce84b2b97c8e9ae82ae43d37ab4d07f66a281b0dae053fafc087ed4ce6aadf2a7979c89c6bed4b3bdc0882b83fb531149d4ec0801000200a984d61653f960220ae0 301 171 |:method|GET|:scheme|http|:path|/healthz|:authority|host3.example.com|user-agent|Mozilla/5.0%20(X11;%20Linux%20x86_64;%20rv:121.0)%20Gecko/20100101%20Firefox/121.0
f 83870491 4 3
n
f 8287049161051d849ffced00d51023f8ac7316017fbf7ab4d07f66a281b0dae053fafc087ed4ce6a 21 1
n
f 3fe11f3fffff033f453f4510026e34147676767676767676767676767676767676767676b540026e310b7676767676767676767676ae 6 5
n
f 3fe21fc087048662728e84cfef418c9ce84b6b97c8e9ae82ae43d37ab4d07f66a281b0dae053fafc087ed4ce6aadf2a7979c89c6bed4b3bdc0882b83fb531149d4ec0801000200a984d61653f960220ae01f118c349034c8da24830fda8981af4088f2b585ed695095830b9f339e96ae47d2693e6190 2 5
n
f 5fc087048e6068415286075d6bb32886bf447f418c9ce84b2b97c8e9ae82ae43d3bf1f0891ba51d85b147e41b8cb8e38cb6f34e85c8f 54 3
n
r 4207434f4e4e45435486048662728e84cfef418c9ce84b4b97c8e9ae82ae43d37ab4d07f66a281b0dae053fafc087ed4ce6aadf2a7979c89c6bed4b3bdc0882b83fb531149d4ec0801000200a984d61653f960220ae0 305 217 |:method|CONNECT|:scheme|http|:path|/healthz|:authority|host4.example.com|user-agent|Mozilla/5.0%20(X11;%20Linux%20x86_64;%20rv:121.0)%20Gecko/20100101%20Firefox/121.0
f 828785418c9ce84b6b97c8e9ae82ae43d3bf1f118c34904ad81a0bd2c9f6a2600f4088f2b585ed695095850bba2eeb89bdc62c05677c1541821c 58 3
n
r 8386048662728e84cfef418c9ce84b4b97c8e9ae82ae43d37a8825b650c3cbb6b83f 242 111 |:method|POST|:scheme|http|:path|/healthz|:authority|host4.example.com|user-agent|curl/8.5.0
f 5f4207434f4e4e4543548785418c9ce84b2b97c8e9ae82ae43d37ab4d07f66a281b0dae053fafc087ed4ce6aadf2a7979c89c6bed4b3bdc0882b83fb531149d4ec0801000200a984d61653f960220ae01f118c34904a1700275d07da8981cf1f0891ba51d85b14109965d69f03acbedc656e4f 72 1
n
f 40026e3109767676767676767676bc00026e310d76767676767676767676767676a510026e324b767676767676767676767676767676767676767676767676767676767676767676767676767676767676767676767676767676767676767676767676 99 3
n
f 8386048662728e84cfef418c9ce848172f91d35d055c87a77ab4d07f66a281b0dae053fafc087ed4ce6aadf2a7979c89c6bed4b3bdc0882b83fb531149d4ec0801000200a984d61653f960220ae01f118c34901198c4495f27da8981cf4088f2b585ed69509599 103 3
n
f 8386049161051d849ffced00d51023f8ac7316017fbf7a8825b650c3cbb6b83f4088f2b585ed6950958108f6bbb5a44dd6ed49900084ffffffff00 21 1
n
f 4207434f4e4e45435486048e6068415286075d6bb32886bf447fc07a882d5dcfe980ae27 26 1
n
f 8386048e6068415286075d6bb32886bf447f418c9ce84b4b97c8e9ae82ae43d37a882d5dcfe980ae27ff4088f2b5 46 3
n
f 838685418c9ce84b4b97c8e9ae82ae43d3bf1f118c349009a647189a93ed44c00f4088f2b585ed6950958501700084ffffffff00 17 1
n
f 828604906075998ee162b3c88ff2835264c0d801418c9ce848972f91d35d055c87a77a8825b650c3cbb6b83f1f0891ba51d85b14648cbcd36d15e906095e10bf41821c 67 3
n
f c0860486 0 1
n
f 3fe11f3fffff0340026e303576767676767676767676767676767676767676767676767676767676767676767676767676767676767676767676767676767676769600026e300176a8 6 5
n
f 42035055548684418c9ce84b4b97c8e9 16 3
n
f 3fe11f3fffff033fe11f3fe11f40026e3142767676767676767676767676767676767676767676767676767676767676767676767676767676767676767676767676767676767676767676767676767676767676b540026e303b7676767676767676767676767676767676767676767676767676767676767676767676767676767676767676767676767676767676767676767676ac701b76767676767676767676767676767676767676767676767676767699 6 5
n
r 8386048e6068415286075d6bb32886bf447f418c9ce848972f91d35d055c87a77ab4d07f66a281b0dae053fafc087ed4ce6aadf2a7979c89c6bed4b3bdc0882b83fb531149d4ec0801000200a984d61653f960220ae0 313 171 |:method|POST|:scheme|http|:path|/assets/app.3f2a.js|:authority|host2.example.com|user-agent|Mozilla/5.0%20(X11;%20Linux%20x86_64;%20rv:121.0)%20Gecko/20100101%20Firefox/121.0
f 20804207434f4e4e45435486049161051d849ffced00d51023f8ac7316017f418c9ce84b2b97c8e9ae82ae43d37a882d5dcfe980ae27ff1f118c349038fbc18c8f35f6a2607390 1 1";

pub const PART_10: &[u8] = b"\
n
f 3f453f090f0e3a76767676767676767676767676767676767676767676767676767676767676767676767676767676767676767676767676767676767676767676a71e27767676767676767676767676767676767676767676767676767676767676767676767676767676926304767676ff768a10026e301976767676767676767676767676767676767676767676767676ad 115 4
n
f 4207434f4e4e4543548685418c9ce848172f91d35d055c87a7c01f118c34903c2688223c1fb513035f1f0891ba51d85b140c6e0e36a579b186 25 1
n
f 5f10026e3212767676767676767676767676767676767676a540026e3145767676767676767676767676767676767676767676767676767676767676767676767676767676767676767676767676767676767676767676767676767676767676767676ae0f2a4676767676767676767676767676767676767676767676767676767676767676767676767676767676767676767676767676767676767676767676767676767676767676767676a60f0e3876767676767676767676767676767676767676767676767676767676767676767676767676767676767676767676767676767676767676768f 234 3
n
f 3fe11f3fffff034207434f4e4e4543548704906075998ee162b3c88ff2835264c0d801418c9ce848972f91d35d055c87a77ab4d07f66a281b0dae053fafc087ed4ce6aadf2a7979c89c6bed4b3bdc0882b83fb531149d4ec0801000200a984d61653f960220ae01f118c3490106479965d67ed44c02f1f0891ba51d85b1479e6a475d03f20a323d295ff 6 5
n
f 00026e303b7676767676767676767676767676767676767676767676767676767676767676767676767676767676767676767676767676767676767676767676a23fe21f 65 6
n
f 3fe21f8287049161051d849ffced00d51023f8ac7316017f418c9ce84b4b97c8e9ae82ae43d37ab4d07f66a281b0dae053fafc087ed4ce6aadf2a7979c89c6bed4b3bdc0882b83fb531149d4ec0801000200a984d61653f960220ae04088f2b585ed6950959905a7b26b12b3 2 5
n
f 8386048662728e84cfefbfbe1f118c349034f15f7dd75ffb51303d1f0891ba51d85b146e5048e8c406de788fc6c8bf4088f2b585ed6950958301489041821c 10 1
n
r 4207434f4e4e4543548704906075998ee162b3c88ff2835264c0d801418c9ce84b2b97c8e9ae82ae43d37a8825b650c3cbb6b83f 260 157 |:method|CONNECT|:scheme|https|:path|/api/v1/pods?limit=500|:authority|host3.example.com|user-agent|curl/8.5.0
f 3f213f4510026e33273f76767676767676767676767676767676767676767676767676767676767676767676767676767686 50 3
n
r 828685418c9ce848972f91d35d055c87a77a882d5dcfe980ae27ff 244 111 |:method|GET|:scheme|http|:path|/index.html|:authority|host2.example.com|user-agent|envoy/1.29
f 20803f451f25307676767676767676767676767676767676767676767676767676767676767676767676767676767676767676767676769755487676767676767676767676767676767676767676767676767676767676767676767676767676767676767676767676767676767676767676767676767676767676767676767676769900026e322876767676767676767676767676767676767676767676767676767676767676767676767676767676bc1f2429767676767676767676767676767676767676767676767676767676767676767676767676767676767696 1 1
n
f 4207434f4e4e45435487048662728e84cfef418c9ce848972f91d35d055c87a77ab4d07f66a281b0dae053fafc08 46 3
n
f 42035055548685418c9ce848572f91d35d055c87a77ab4d07f66a281b0dae053fafc087ed4ce6aadf2a7979c89c6bed4b3bdc0882b83fb531149d4ec0801000200a984d61653f960220ae01f118c349038d1 82 3
n
f c086047f8662728e84cfefbf7a8825b650c3cbb6b83f4088f2b585ed6950959905b5d5a9cf3590 0 1
n
r 4207434f4e4e45435486049161051d849ffced00d51023f8ac7316017f418c9ce84b2b97c8e9ae82ae43d37a8825b650c3cbb6b83f 259 157 |:method|CONNECT|:scheme|http|:path|/search?q=a%2520b&page=2|:authority|host3.example.com|user-agent|curl/8.5.0
f 40026e334a76767676767676767676767676767676767676767676767676767676767676767676767676767676767676767676767676767676767676767676767676767676767676767676767676768f80 80 1
n
f 4207434f4e4e45435486049161051d849ffced00d5 21 3
n
f 00026e3348767676767676767676767676767676767676767676767676767676767676767676767676767676767676767676767676767676767676767676767676767676767676767676767676ad0f1922767676767676767676767676767676767676767676767676767676767676767676769741821c 119 3
n
f 3fe11f3fffff034207434f4e4e45435487049161051d849ffced00d51023f8ac7316017fc0bf1f118c3490144e3a11343fb51303df1f0890ba51d85b1470320a3109b295b285c2b9 6 5
n
f 3fe21f3f090f2621767676767676767676767676767676767676767676767676767676767676767676aa40026e33387676767676767676767676767676767676767676767676767676767676767676767676767676767676767676767676767676767676767676896d30767676767676767676767676767676767676767676767676767676767676767676767676767676767676767676767676ab40026e3344767676767676767676767676767676767676767676767676767676767676767676767676767676767676767676767676767676767676767676767676767676767676767689 2 5
n
f 3f213fe11f40026e34057676767676970f2026767676767676767676767676767676 34 3
n
f 42035055548704906075998ee162b3c88ff2835264c0d801418c9ce848972f91d35d055c87a77a882d5dcfe980ae27ff1f118c349014 54 3
n
f 420350555486048e6068415286075d6bb32886bf447f418c9ce84b6b97c8e9ae82ae43d37ab4d07f66a281b0dae053fafc087ed4ce6aadf2a7979c89c6bed4b3bdc0882b83fb531149d4ec0801 77 3
n
r 4207434f4e4e4543548685418c9ce848972f91d35d055c87a77a882d5dcfe980ae27ff 248 157 |:method|CONNECT|:scheme|http|:path|/index.html|:authority|host2.example.com|user-agent|envoy/1.29
f 3fe21f8387048662728e84cfefbf7a8825b650c3cbb6b83f1f118c349011b100a491dfb513037f1f0891ba51d85b14015b65f0942f865136eb72ff4088f2b585ed6950958309fca898ee43dcdfabd0 2 5
n
f 4207434f4e4e4543548604906075998ee162b3c88ff2835264c0d801418c9ce84b4b97c8e9ae82ae43d33f7ab4d07f66a281b0dae053fafc087ed4ce6aadf2a7979c89c6bed4b3bdc0882b83fb531149d4ec0801000200a984d61653f960220ae0 42 6
n
f 7049767676767676767676767676767676767676767676767676767676767676767676767676767676767676767676767676767676767676767676767676767676767676767676767676769640026e3116767676767676767676767676767676767676767676769800026e332d767676767676767676767676be767676767676767676767676767676767676767676767676767676767676767676951f2a0876767676767676768f 168 3
n
r 838785418c9ce84b6b97c8e9ae82ae43d37ab4d07f66a281b0dae053fafc087ed4ce6aadf2a7979c89c6bed4b3bdc0882b83fb531149d4ec0801000200a984d61653f960220ae0 306 171 |:method|POST|:scheme|https|:path|/index.html|:authority|host5.example.com|user-agent|Mozilla/5.0%20(X11;%20Linux%20x86_64;%20rv:121.0)%20Gecko/20100101%20Firefox/121.0
f 20838684bfbe1f118c349046cbd205f0c7f6a2607b 4 1
n
f 828704906075998ee162b3c88ff2835264c0d801418c9ce84b2b97c8e9 29 3
n
f 5f8286048662728e84cfef418c9ce848572f91d35d055c87a77ab4d07f66a281b0dae053fafc087ed4ce6aadf2a7979c89c6bed4b3bdc0882b83fb531149d4ec0801000200a984d61653f960220ae01f118c349011b0b811b727da8981ef90 1 4
n
r 42035055548704906075998ee162b3c88ff2835264c0d801418c9ce848572f91d35d055c87a77ab4d07f66a281b0dae053fafc087ed4ce6aadf2a7979c89c6bed4b3bdc0882b83fb531149d4ec0801000200a984d61653f960220ae0 316 213 |:method|PUT|:scheme|https|:path|/api/v1/pods?limit=500|:authority|host1.example.com|user-agent|Mozilla/5.0%20(X11;%20Linux%20x86_64;%20rv:121.0)%20Gecko/20100101%20Firefox/121.0
f c08784418c9ce84b6b97c8e9ae82ae43d3bf1f118c349048 24 3
n
f 8386048e6068415286075d7f6bb32886bf447fbf7a882d5dcfe980ae27ff 3 4
n
f c08784bf7a8825b650c3cbb6b83f4088f2b585ed69005095990700babe823e0f1d 0 1
n
r 4207434f4e4e4543548684418c9ce848172f91d35d055c87a77a882d5dcfe980ae27ff 238 157 |:method|CONNECT|:scheme|http|:path|/|:authority|host0.example.com|user-agent|envoy/1.29
f 838785418c9ce84b6b97c8e9ae82ae43d3bf1fff118c3490104dbb1cae03ed44c02f90 20 1
n
f 42035055548785418c9ce848172f91d35d055c87a77ab4d07f66a281b0dae053fafc087ed4ce6aadf2a7979c89c6bed4b3bdc0882b83fb531149d4ec0801000200a97f84d61653f960220ae01f118c34900863009b75dfb513003f 22 4
n
f 5d33767676767676767676767676767676767676 20 3
n
f 3fe21f420350555486048e6068415286075d6bb32886bf447f418c9ce848572f91d35d055c87a77a882d5dcfe980ae27ff 2 5
n
f 5f40026e32387676767676767676767676767676767676767676767676767676767676767676767676767676767676767676767676767676767676767676b7542a767676767676767676767676767676767676767676767676767676767676767676767676767676767676bb 108 3
n
r 420350555486048e6068415286075d6bb32886bf447f418c9ce848572f91d35d055c87a77ab4d07f66a281b0dae053fafc087ed4ce6aadf2a7979c89c6bed4b3bdc0882b83fb531149d4ec0801000200a984d61653f960220ae0 312 213 |:method|PUT|:scheme|http|:path|/assets/app.3f2a.js|:authority|host1.example.com|user-agent|Mozilla/5.0%20(X11;%20Linux%20x86_64;%20rv:121.0)%20Gecko/20100101%20Firefox/121.0
f 828604906075998ee162b3c88ff2835264c0d801418c9ce848172f91d35d055c87a77a8825b650c3cbb6b83f1f118c34900081706e3ad7da8981bf1f0891ba51d85b146d972320248e3780e024919f4088f2b585ed695095990896ec7b4173d2becb903fe21f 99 6
n
f 75347676 4 3
n
r 838785418c9ce84b4b97c8e9ae82ae43d37a8825b650c3cbb6b83f 246 111 |:method|POST|:scheme|https|:path|/index.html|:authority|host4.example.com|user-agent|curl/8.5.0
f 7fff828704906075998ee162b3c88ff2835264c0d801bf7ab4d07f66a281b0dae053fafc087ed4ce6aadf2a7979c89c6bed4b3bdc0882b83fb531149d4ec0801000200a984d61653f960220ae04088f2b585ed69509583071a9e58abfaebea 4 1
n
r 420350555486048662728e84cfef418c9ce84b6b97c8e9ae82ae43d37a8825b650c3cbb6b83f 241 153 |:method|PUT|:scheme|http|:path|/healthz|:authority|host5.example.com|user-agent|curl/8.5.0
f 20804207434f4e4e45435486048e6068415286075d6bb32886bf447f418c9ce848572f91d35d055c87a77a882d5dcfe980ae27ff1f0891ba51d85b14034fb32803212495e6dc783f4088f2b585ed695095830983e3a2a75db0165b7e 1 1
n
f 4207434f4e4e45435487048e6068415286075d6bb32886bf447f418c9ce848572f91d35d055c87a77a8825b650c3cbb6b83f1f118c3490351baf08258fed44c0cf1f0891ba51d85b1468928c019236c2e4a575a6ff4088f2b585ed6950958308381dba8227e0bc190084ffffffff00 105 4";

pub const PART_11: &[u8] = b"\
n
f 40026e322076767676767676767676767676767676767676767676767676767676767676769040026e304d767676767676767676207676767676767676767676767676767676767676767676767676767676767676767676767676767676767676767676767676767676767676767676767676767676767676ae0f033476767676767676767676767676767676767676767676767676767676767676767676767676767676767676767676767676767676b6794376767676767676767676767676767676767676767676767676767676767676767676767676767676767676767676767676767676767676767676767676767676767676ad 248 3
n
f 838704906075998ee162b3c88ff2835264c0d801418c9ce848172f91d35d055c87a77ab4d07f66a281b0dae053fafc087ed4ce6aadf2a7979c89c6 59 3
n
f 5fc08684418c9ce84b4b97c8e9ae82ae43d37a8825b650c3cbb6b83f1f118c349001f0b649657fed44c0d71f0890ba51d85b1413918da0c8370256da11494088f2b585ed69509599059397ba830e 1 4
n
f 4207434f4e4e4543548704906075998ee162b3c88ff2835264c0d801418c9ce8 32 3
n
f 3f213fe11f5c277676767676767676767676767676767676767676767676767676767676767676767676767676768a1f104a76767676767676767676767676767676767676767676767676767676767676767676767676767676767676767676767676767676767676767676767676767676767676767676767676768340026e304676767676767676767676767676767676767676767676767676767676767676767676767676767676767676767676767676767676767676767676767676767676767676767676b86a4376767676767676767676767676767676767676767676767676767676767676767676767676767676767676767676767676767676767676767676767676767676767676b80f 272 3
n
f c087048e6068415286075d6bb32886bf447f418c9ce84b2b97c8e9ae82ae43d3bf1f0891ba51d85b149411c631caf3a12caf85967f4088f2b585ed695095810a 0 1
n
f 838785418c9ce848972f91d35d055c 15 3
n
f 5f8286048662728e84cfefbf7a8825b650c3cbb6b83f1f118c349038d3e279f7defb5130371f0891ba51d85b14640e385185f75a18a57c91ff 1 4
n
f 3fe11f714376767676767676767676767676767676767676767676767676767676767676767676767676767676767676767676767676767676767676767676767676767676767676b44d4176767676767676767676be7676767676767676767676767676767676767676767676767676767676767676767676767676767676767676767676767676767676767691121a767676767676767676767676767676767676767676767676767692 141 4
n
f c087048e6068415286075d6bb32886bf447f418c9ce84b6b97c8e9ae82ae43d3bf1f118c349048f95c03cf0fed44c02f1f0891ba51d85b142c6f140cb6cb 0 1
n
f 838685418c9ce84b2b97c8e9ae82ae43d37a882d805dcfe980ae27ff1f118c349014b1b929001fb51303bf 18 4
n
f 3f453f4540026e311676767676767676767676767676767676767676767676a00f 33 3
n
f 40026e321e767676767676767676767676767676767676767676767676767676767676b040026e3400b5773f767676767676767676767676767676767676767676767676767676767676767676767676767676767676767676767676767676767676767676767676767676860084ffffffff00 109 4
n
f 838685418c9ce84b4b97c8e9ae82ae43d3bf4088f2b585ed69509581038015095190 17 1
n
f 835285418c9ce84b4b97c8e9ae82ae43d3bf1f0890ba51d85b140b7280217dd2351909211c4088f2b585ed695095990260a3 2 4
n
f 0f0e3276767676767676767676767676767676767676767676807676767676767676767676767676767676767676767676767676767682 55 3
n
f 828685bf7a8825b650c3cbb6 3 1
n
r 838684418c9ce848972f91d35d055c87a77a8825b650c3cbb6b83f 235 111 |:method|POST|:scheme|http|:path|/|:authority|host2.example.com|user-agent|curl/8.5.0
f 42035055548604906075998ee162b3c88ff2835264c0d801c07ab4d07f66a281b0dae053fafc087ed4ce6aadf2a7979c89c6bed4b3bdc0882b83fb531149d4ec0801000200a984d61653f960370ae01f118c34903cfbadbed0d9fb51303b1f0891ba51d85b1403cd14acb6524a165f65e27f4088f2b585ed69509581043d8784df90 26 4
n
f 00026e30277676767676767676767676767676767676767676767676767676767676767676767676767676768900026e300d767676767676767676767676769c00026e33417676767676767676767676767676767676767676767676767676767676767676767676767676767676767676767676767676767676767676767676767676767676bc00026e340c7676767676767676767676768affffffffffff 158 2
n
f c087048662728e84cfef418c9ce848972f91d35d05 0 1
n
f 00026e3146767676767676767676767676767676767676767676767676767676767676767676767676767676767676767676767676767676767676767676767676767676767676767676769358427676767676767676767676767676767676767676767676767676767676 107 3
n
f 828685418c9ce848972f91d35d055c87a77a882d5dcfe980ae27ff1f11808c34900651c816c4dfda8981cf90 31 6
n
f 42035055548604906075998ee162b3c88ff2835264c0d801c0bf4088f2b585ed69509599051cafb710660084ffffffff00 24 1
n
f 00026e31127676767676767676767676767676 19 3
n
r 828604906075998ee162b3c88ff2835264c0d801418c9ce84b2b97c8e9ae82ae43d37ab4d07f66a281b0dae053fafc087ed4ce6aadf2a7979c89c6bed4b3bdc0882b83fb531149d4ec0801000200a984d61653f960220ae0 315 171 |:method|GET|:scheme|http|:path|/api/v1/pods?limit=500|:authority|host3.example.com|user-agent|Mozilla/5.0%20(X11;%20Linux%20x86_64;%20rv:121.0)%20Gecko/20100101%20Firefox/121.0
f 42035055548704906075998ee162b3c88ff2835264c0d80180c0bf1f118c34903af48d3e4965fb5130034088f2b585ed6950959904b2286bad 24 1
n
f 2077327676767676767676767676767676767676767676767676763f76767676767676767676767676767676767676767676767676768140026e341376767676767676767676767676767676767676b55a0676767676767696 54 4
n
f 420350555487048662728e84cfef418c9ce84b 19 3
n
f 828704866272 6 3
n
r 828785418c9ce848972f91d35d055c87a77a882d5dcfe980ae27ff 245 111 |:method|GET|:scheme|https|:path|/index.html|:authority|host2.example.com|user-agent|envoy/1.29
f 42035055548785418c9ce848572f91d35d055c87a7c01f118c34904ad4af48f8ddfb5130394088 39 3
n
r 420350555486049161051d849ffced00d51023f8ac7316017f418c9ce84b4b97c8e9ae82ae43d37ab4d07f66a281b0dae053fafc087ed4ce6aadf2a7979c89c6bed4b3bdc0882b83fb531149d4ec0801000200a984d61653f960220ae0 315 213 |:method|PUT|:scheme|http|:path|/search?q=a%2520b&page=2|:authority|host4.example.com|user-agent|Mozilla/5.0%20(X11;%20Linux%20x86_64;%20rv:121.0)%20Gecko/20100101%20Firefox/121.0
f 208040026e342d767676767676767676767676767676767676767676767676767676767676767676767676767676767676767676ba1f154f76767676767676767676767676767676767676767676767676767676767676767676767676767676767676767676767676767676767676767676767676767676767676767676767676767676767676b441087676767676767676a0784f76767676767676767676767676767676767676767676767676767676767676767676767676767676767676767676767676767676767676767676767676767676767676767676767676767676767676a8 1 1
n
f 4207434f4e4e45435486049161051d849ffced00d51023f8ac7316017f418c9ce84b2b97c8e9ae82ae43d37a882d5dcfe980ae27ff1f118c34904812b83688f7da89 66 3
n
r 42035055548604906075998ee162b3c88ff2835264c0d801418c9ce848972f91d35d055c87a77ab4d07f66a281b0dae053fafc087ed4ce6aadf2a7979c89c6bed4b3bdc0882b83fb531149d4ec0801000200a984d61653f960220ae0 315 213 |:method|PUT|:scheme|http|:path|/api/v1/pods?limit=500|:authority|host2.example.com|user-agent|Mozilla/5.0%20(X11;%20Linux%20x86_64;%20rv:121.0)%20Gecko/20100101%20Firefox/121.0
f 3f453f4510026e31447676767676767676767676767676767676767676767676767676767676767676767676767676767676767676767676767676767676767676767676767676767676767676a710026e30317676762076767676767676767676767676767676767676767676767676767676767676767676767676767676767676767676ac10026e313c76767676767676767676767676767676767676767676767676767676767676767676767676767676767676767676767676767676767676767676767692 200 3
n
f 4207434f4e4e4543548684418c9ce848972f91d35d055c87a77a88 27 3
n
f 8387049161051d849ffced00d51023f8ac7316017f418c9ce84b6b97c8e9ae82ae43d3bf1f0891ba51d8 35 1
n
f 3fe11f3fffff03c087049161051d849ffced00d51023f8ac7316017f418c9ce84b6b97c8e9ae82ae43d37ab4d07f66a281b0dae053fafc087ed4ce6aadf2a7979c89c6bed4b3bdc0882b83fb531149d4ec0801000200a984d61653f960220ae01f118c34903f23d2c6f045f6a260671f0891ba51d85b1470128dd2b6371d7452b5203f 6 5
n
f 828704906075998ee162b3c88ff2835264c0d801418c9ce84b2b97c8e9ae82ae43d37a8825 37 3
n
f 3fe21f10026e3049767676767676767676767676767676767676767676767676767676767676767676767676767676767676767676767676767676767676767676767676767676767676767676767676769a00026e341b76767676767676767676767676767676767676767676767676767691671e7676767676767676767676767676767676767676767676767676767676768d6912767676767676767676767676767676767676aa 2 5
n
f 4207434f4e4e4543548785c07ab4d07f66a281b0dae053fafc087ed4ce6aadf2a7979c89c6bed4b3bdc0882b83fb531149d4ec0801000200a984d61653f960220ae01f118c349014a22bafb6cfda8981af4088f2b585ed69509581019f3fe21f 11 1
n
r 8387048e6068415286075d6bb32886bf447f418c9ce84b4b97c8e9ae82ae43d37a8825b650c3cbb6b83f 254 111 |:method|POST|:scheme|https|:path|/assets/app.3f2a.js|:authority|host4.example.com|user-agent|curl/8.5.0
f 8387048662728e84cf3fef418c9ce84b6b97c8e9ae82ae43d37a882d5dcfe980ae27ff1f0891ba51d85b147da8da215b7444132fbecc7f4088f2b585ed695095850950fc95d40b6e165497 10 1
n
r 4207434f4e4e4543548685418c9ce848972f91d35d055c87a77a8825b650c3cbb6b83f 248 157 |:method|CONNECT|:scheme|http|:path|/index.html|:authority|host2.example.com|user-agent|curl/8.5.0
f 8387048e6068415286075d6bb32886bf447f418c9ce848572f91d35d055c87a77ab4d07f66a281b0dae053fafc087ed4ce6aadf2a7979c89c6bed4b3bdc0882b83fb531149d4ec0801000200a984d61653f960220ae01f0891ba51d8be5b14148375c03528d9195c95b73f4088f2b585ed69509581041d4c0790 88 4
n
f c08604 0 1
n
f 3fe11f0f0c3a76767676767676767676767676767676767676767676767676767676767676767676767676767676767676767676767676767676767676767676841f25297676767676767676767676767676767676767676767676767676767676767676767676767676767676b70f253e76767676767676767676767676767676767676767676767676767676767620767676767676767676767676767676767676767676767676767676767676767685 177 3";

pub const PART_12: &[u8] = b"\
n
f 838785418c9ce84b6b97c8e9ae82ae43d3bf001f118c34901451863708d7da89801f4088f2b585ed6950958108c9edbff3c668afb2 17 1
n
f 838684418c9ce848572f91d35d055c87a77ab4d07f66a281b0dae053fafc087ed4ce6aadf2a7979c89c6bed4b3bdc0882bbe83fb531149d4ec0801000200a984d61653f960220ae01f0891ba51d85b1476403af008323b291b91e27f 18 4
n
r 42035055548684418c9ce848572f91d35d055c87a77ab4d07f66a281b0dae053fafc087ed4ce6aadf2a7979c89c6bed4b3bdc0882b83fb531149d4ec0801000200a984d61653f960220ae0 294 213 |:method|PUT|:scheme|http|:path|/|:authority|host1.example.com|user-agent|Mozilla/5.0%20(X11;%20Linux%20x86_64;%20rv:121.0)%20Gecko/20100101%20Firefox/121.0
f 7fff8287048662728e84cfef418c9ce84b4b97c8e9ae82ae43d37a8825b650c3cbb6b83f1f118c349014647247dd6bed44c02f 4 1
n
f 3fe21f4207434f4e4e45435486048e6068415286075d6bb32886bf447f418c9ce848172f91d35d055c87a7c01f118c349038013801ba5fb513035f1f0891ba51d85b147871bf2bd246eca28de919934088f2b585ed6950959903e651fb 2 5
n
f 3fe21f47267676767676767676767676767676767676767676767676767676767676767676767676767676ac 2 5
n
r 42035055548685418c9ce848172f91d35d055c87a77a8825b650c3cbb6b83f 244 153 |:method|PUT|:scheme|http|:path|/index.html|:authority|host0.example.com|user-agent|curl/8.5.0
f 348604906075998ee162b3c88ff2835264c0d801bf7a882d5dcfe980ae27ff1f118c34904a4015f9023fb513039f4088f2b585ed69509599082a3b9b97718e12e5 20 1
n
r 828685418c9ce84b6b97c8e9ae82ae43d37a882d5dcfe980ae27ff 244 111 |:method|GET|:scheme|http|:path|/index.html|:authority|host5.example.com|user-agent|envoy/1.29
f 20808387049161051d849ffced00d51023f8ac7316017f418c9ce848572f91d35d055c87a77a8825b650c3cbb6b83f 1 1
n
r 42035055548685418c9ce848172f91d35d055c87a77a8825b650c3cbb6b83f 244 153 |:method|PUT|:scheme|http|:path|/index.html|:authority|host0.example.com|user-agent|curl/8.5.0
f 8387048e6068415286075d6bb32886bf447f418c9ce848572f91d35d05 29 3
n
r 838684418c9ce84b6b97c8e9ae82ae43d37a882d5dcfe980ae27ff 235 111 |:method|POST|:scheme|http|:path|/|:authority|host5.example.com|user-agent|envoy/1.29
f 42035080555487048662728e84cfef418c9ce84b2b97c8e9ae82ae43d37a8825b650c3cbb6b83f1f118c34903cecb20192bbf6a2600f4088f2b585ed6950958303af00e4 14 1
n
r 42035055548685418c9ce84b2b97c8e9ae82ae43d37ab4d07f66a281b0dae053fafc087ed4ce6aadf2a7979c89c6bed4b3bdc0882b83fb531149d4ec0801000200a984d61653f960220ae0 304 213 |:method|PUT|:scheme|http|:path|/index.html|:authority|host3.example.com|user-agent|Mozilla/5.0%20(X11;%20Linux%20x86_64;%20rv:121.0)%20Gecko/20100101%20Firefox/121.0
f 7fff4207434f4e4e45435486049161051d849ffced00d51023f8ac7316017f418c9ce848172f91d35d055c87a77a8825b650c3cbb6b83f 2 1
n
f 4207434f4e4e4543548604c861051d849ffced00d51023f8ac7316017f418c9ce84b6b97c8e9ae82ae43d3c0 44 3
n
f 3fe21f3fe11f00026e33057676767676a640026e312876767676767676767676767676767676767676767676767676767676767676767676767676767676aa 2 5
n
r 8387048662728e84cfef418c9ce84b2b97c8e9ae82ae43d37ab4d07f66a281b0dae053fafc087ed4ce6aadf2a7979c89c6bed4b3bdc0882b83fb531149d4ec0801000200a984d61653f960220ae0 303 171 |:method|POST|:scheme|https|:path|/healthz|:authority|host3.example.com|user-agent|Mozilla/5.0%20(X11;%20Linux%20x86_64;%20rv:121.0)%20Gecko/20100101%20Firefox/121.0
f 3fe11f3fffff03828684418c9ce848572f91d35d055c87a77a882d5dcfe980ae27ff1f118c34900a524ad8246bed44c02f 6 5
n
f c08684418c9ce84b6b97c8e9ae82ae43d37a882d5dcfe980ae2780ff1f0891ba51d85b147c6d4b24728e3640fbcd865f4088f2b585ed695095810a0583eea6c987e72d38d2 0 1
n
r 838685418c9ce84b6b97c8e9ae82ae43d37a882d5dcfe980ae27ff 245 111 |:method|POST|:scheme|http|:path|/index.html|:authority|host5.example.com|user-agent|envoy/1.29
f 42035055548704906075998ebee162b3c88ff2835264c0d801418c9ce84b2b97c8e9ae82ae43d3c01f118c3490088d088504bf6a2606ff1f0891ba51d85b1471b65a08c04148d8e47dc97f 7 4
n
r 838685418c9ce848572f91d35d055c87a77a882d5dcfe980ae27ff 245 111 |:method|POST|:scheme|http|:path|/index.html|:authority|host1.example.com|user-agent|envoy/1.29
f 3f453fe11f40026e302976767676767676767676767676767676767676767676767676767676767676767676767676767676769040026e303a76767676767676767676767676767676767676767676767676767676767676767676767676767676767676767676767676767676767676767676af41821c 119 3
n
f 420350555487048e6068415286075d6bb32886bf447f418c9ce84b2b97c8e9ae82 33 3
n
f 3fe11f3fffff03c087048662728e84cfef418c9ce848572f91d35d055c87a77a8825b650c3cbb6b83f1f118c349048cb6d485905f6a260071f0891ba51d85b14238c806e48c95b946d0a56ff90 6 5
n
f 4207434f4e4e4543548785418c9ce848572f91d35d055c87a77a8825b650c3cbb6b83f0084ffffffff00 36 4
n
f 00026e32187676767676767676767676767676767676767676 25 3
n
r 8387048e6068415286075d6bb32886bf447f418c9ce848172f91d35d055c87a77a8825b650c3cbb6b83f 254 111 |:method|POST|:scheme|https|:path|/assets/app.3f2a.js|:authority|host0.example.com|user-agent|curl/8.5.0
f 8286049161051d849ffced00d51023f8ac7316017f418c9ce848972f91d35d055c87a7bf1f118c34904918a3246dc9f6a2606f4088f2b585ed695095830698d3a6d516a80084ffffffff00 69 4
n
r 828784418c9ce84b2b97c8e9ae82ae43d37a8825b650c3cbb6b83f 235 111 |:method|GET|:scheme|https|:path|/|:authority|host3.example.com|user-agent|curl/8.5.0
f 04117676767676767676767676767676767676ac80 20 1
n
f 4207434f4e4e4543548785418c9ce848972f91d35d055c87a77a8825b650c3cbb6b83f1f0891ba51d85b1469978af00adbefb92b82785f41821c 58 3
n
f c087a38e6068415286075d6bb32886bf447fbf7a8825b650c3cbb6b83f 0 1
n
f 5fc087049161051d849ffced00d51023f8ac7316017f418c9ce848172f91d35d055c87a7bf1f118c34903ce46d880373ed44c0df 52 3
n
f 3fe21f8386048662728e84cfefbf7a882d5dcfe980ae27ff 2 5
n
f 828704906075998ee162b3c88ff2835264c0d801bf7a8825b650c3cbb6b83f1f0890ba51d85b140bee91f92464a40ca00009903fe21f 20 1
n
r 4207434f4e4e45435486049161051d849ffced00d51023f8ac7316017f418c9ce848172f91d35d055c87a77a8825b650c3cbb6b83f 259 157 |:method|CONNECT|:scheme|http|:path|/search?q=a%2520b&page=2|:authority|host0.example.com|user-agent|curl/8.5.0
f 8387048e6068415286075d6bb32886bf447f418c9ce84b4b97c8e9ae82ae43d37a882d5dcfe980ae27ff1f0891ba51d8 48 3
n
r 420350555487048662728e84cfef418c9ce848572f91d35d055c87a77a8825b650c3cbb6b83f 242 153 |:method|PUT|:scheme|https|:path|/healthz|:authority|host1.example.com|user-agent|curl/8.5.0
f 7fff4207434f4e4e45435486049161051d849ffced00d51023f8ac7316017f418c9ce84b2b97c8e9ae82ae43d3c0 2 1
n
r 838784418c9ce84b6b97c8e9ae82ae43d37a8825b650c3cbb6b83f 236 111 |:method|POST|:scheme|https|:path|/|:authority|host5.example.com|user-agent|curl/8.5.0
f 5f4207434f4e4e45435486048e6068415286075d6bb32886bf447f418c9ce84b2b97c8e9ae82ae43d37a882d5dcfe980ae27ff1f118c349005f8c12ba117da89805f4088f2b585ed6950958303f8c3bc90 68 1
n
f 420350555487049161051d849ffced00d51023f8ac7316017f418c9ce848972f91d35d055c87a77a8825b650c3cbb6b83f1f0891ba51d85b142071c8d975c64adc651bee085f4088f2b585ed695095990b62e8d905a9dc42b1bc6c20 51 4
n
f 8286048662728e84cfef418c9ce84b4b97c8e9ae82ae43d37ab4d07f66a281b0dae053fafc087ed4ce6aadf2a7979c89c6bed4b3bdc0882b83fb531149d4ec0801000200a984d6165320f960220ae01f118c349046f3f2042c8fed44c00f 25 4
n
f 838784418c9ce84b4b97c8e9ae82ae43d37ab4d07f66a281b0dae053fafc087ed4ce6aadf2a7979c89c6bed4b3bdc0882b83fb531149d4ec0801000200a984d61653f960220ae01f118c34904b1c6fbe32 81 3
n
f 3fe11f3fffff038386048e6068415286075d6bb32886bf447f418c9ce848972f91d35d055c87a7bf90 6 5
n
f 8386048e6068415286075d6bb32886bf447fbf7ab4d07f66a281b0dae053fafc087ed4ce6aadf2a7979c89c6bed4b3bdc0882b83fb531149d4ec0801000200a984d61653f960220ae01f0890ba51d85b140b220be21c612ca38db1b79020 18 1
n
f 420350555487048662728e84cfef418c9ce84b6b97c8e9ae82ae43d37a8825b650c3cbb6b83f1f118c349032d95d74a367edbe44c0ef 40 4
n
f 3fe21f4207434f4e4e4543548684418c9ce848572f91d35d055c87a77a8825b650c3cbb6b83f 2 5
n
f 8287044861051d849ffced00d51023f8ac7316017f418c9ce848972f91d35d055c87a77a8825b650c3cbb6b83f1f0891ba51d85b14646e4b2b8594acb2490622ff4088f2b585ed695095850a6d97cf7f197fcb0cc8dc90 87 3
n
f 4207434f4e4e45435487049161051d849ffced00d51023f8ac7316017f418c9ce848972f91d35d055c87a77a8825b650c3cbb6b83f1f118c2034904afb8fba36cbf6a26017 69 3
n
f 1002 2 3";
