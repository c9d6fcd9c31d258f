//! What one end of a connection answers, as a machine that was written from RFC 9113 answers it. bench/tables/streams.py prints
//! this file.
//!
//! A line has the role of the end, and then its moves in order: their letters, `@`, the number of the stream, `=`, what each
//! of them is answered, `:`, and the sides of the stream that are open afterwards, `o` this end's own and `p` the peer's.
//! Several letters are moves on one stream; a move on `1..5` is made on 1, 3 and 5.
//!
//! A frame that comes is `d` DATA, `h` HEADERS, `r` RST_STREAM, `w` WINDOW_UPDATE, `p` PRIORITY or `u` of an unknown type,
//! with a capital letter where its flag END_STREAM is set. It is `new`, `goes` or is `ignored`, or is an error of the
//! connection, `C`, or of the stream, `S`, with a code. This end opens a stream, `o`, while fewer than the number behind `/`
//! are open, sends END_STREAM, `e`, or sends RST_STREAM, `x`.

/// Each frame on a stream in each state, named by the lines that begin with `#`.
pub const STATES: &[u8] = b"\
# server: idle, nothing used, stream 1\n\
server dDrRwW@1=C1:-- pPuU@1=ignored:--\n\
server h@1=new:op d@1=goes:op hH@1=S1:op wW@1=goes:op pPuU@1=ignored:op\n\
server H@1=new:o- dDhH@1=S5:o- wW@1=goes:o- pPuU@1=ignored:o-\n\
# server: idle, above a used one, stream 7\n\
server h@5=new:op dDrRwW@7=C1:-- pPuU@7=ignored:--\n\
server h@5..7=new:op d@7=goes:op hH@7=S1:op wW@7=goes:op pPuU@7=ignored:op\n\
server h@5=new:op H@7=new:o- dDhH@7=S5:o- wW@7=goes:o- pPuU@7=ignored:o-\n\
# server: idle, the largest number, stream 2147483647\n\
server h@5=new:op dDrRwW@2147483647=C1:-- pPuU@2147483647=ignored:--\n\
server h@5=new:op h@2147483647=new:op d@2147483647=goes:op hH@2147483647=S1:op wW@2147483647=goes:op pPuU@2147483647=ignored:op\n\
server h@5=new:op H@2147483647=new:o- dDhH@2147483647=S5:o- wW@2147483647=goes:o- pPuU@2147483647=ignored:o-\n\
# server: even, stream 4\n\
server h@5=new:op dDhHrRwW@4=C1:-- pPuU@4=ignored:--\n\
# server: even, above all, stream 6\n\
server h@5=new:op dDhHrRwW@6=C1:-- pPuU@6=ignored:--\n\
# server: skipped, stream 3\n\
server h@5=new:op dDhH@3=C5:-- rRwWpPuU@3=ignored:--\n\
# server: open, stream 5\n\
server h@5=new:op d@5=goes:op hH@5=S1:op wW@5=goes:op pPuU@5=ignored:op\n\
server h@5=new:op D@5=goes:o- dDhH@5=S5:o- wW@5=goes:o- pPuU@5=ignored:o-\n\
server h@5=new:op r@5=goes:-- dDhH@5=C5:-- rRwWpPuU@5=ignored:--\n\
server h@5=new:op R@5=goes:-- dDhH@5=C5:-- rRwWpPuU@5=ignored:--\n\
# server: open, the largest number, stream 2147483647\n\
server h@2147483647=new:op d@2147483647=goes:op hH@2147483647=S1:op wW@2147483647=goes:op pPuU@2147483647=ignored:op\n\
server h@2147483647=new:op D@2147483647=goes:o- dDhH@2147483647=S5:o- wW@2147483647=goes:o- pPuU@2147483647=ignored:o-\n\
server h@2147483647=new:op r@2147483647=goes:-- dDhH@2147483647=C5:-- rRwWpPuU@2147483647=ignored:--\n\
server h@2147483647=new:op R@2147483647=goes:-- dDhH@2147483647=C5:-- rRwWpPuU@2147483647=ignored:--\n\
# server: skipped below the largest number, stream 2147483645\n\
server h@2147483647=new:op dDhH@2147483645=C5:-- rRwWpPuU@2147483645=ignored:--\n\
# server: half-closed (remote) by HEADERS, stream 5\n\
server H@5=new:o- dDhH@5=S5:o- wW@5=goes:o- pPuU@5=ignored:o-\n\
server H@5=new:o- r@5=goes:-- dDhH@5=C5:-- rRwWpPuU@5=ignored:--\n\
server H@5=new:o- R@5=goes:-- dDhH@5=C5:-- rRwWpPuU@5=ignored:--\n\
# server: half-closed (remote) by DATA, stream 5\n\
server h@5=new:op D@5=goes:o- dDhH@5=S5:o- wW@5=goes:o- pPuU@5=ignored:o-\n\
server h@5=new:op D@5=goes:o- r@5=goes:-- dDhH@5=C5:-- rRwWpPuU@5=ignored:--\n\
server h@5=new:op D@5=goes:o- R@5=goes:-- dDhH@5=C5:-- rRwWpPuU@5=ignored:--\n\
# server: half-closed (local), stream 5\n\
server h@5=new:op e@5=ends:-p d@5=goes:-p hH@5=S1:-p wW@5=goes:-p pPuU@5=ignored:-p\n\
server h@5=new:op e@5=ends:-p D@5=goes:-- dDhH@5=C5:-- rRwWpPuU@5=ignored:--\n\
server h@5=new:op e@5=ends:-p r@5=goes:-- dDhH@5=C5:-- rRwWpPuU@5=ignored:--\n\
server h@5=new:op e@5=ends:-p R@5=goes:-- dDhH@5=C5:-- rRwWpPuU@5=ignored:--\n\
# server: closed, this end ended last, stream 5\n\
server H@5=new:o- e@5=ends:-- dDhH@5=C5:-- rRwWpPuU@5=ignored:--\n\
# server: closed, the peer ended last, stream 5\n\
server h@5=new:op e@5=ends:-p D@5=goes:-- dDhH@5=C5:-- rRwWpPuU@5=ignored:--\n\
# server: reset by the peer, stream 5\n\
server h@5=new:op r@5=goes:-- dDhH@5=C5:-- rRwWpPuU@5=ignored:--\n\
# server: reset by the peer, half-closed (remote), stream 5\n\
server H@5=new:o- r@5=goes:-- dDhH@5=C5:-- rRwWpPuU@5=ignored:--\n\
# server: reset by the peer, half-closed (local), stream 5\n\
server h@5=new:op e@5=ends:-p r@5=goes:-- dDhH@5=C5:-- rRwWpPuU@5=ignored:--\n\
# server: reset by this end, stream 5\n\
server h@5=new:op x@5=resets:-- dDhHrRwWpPuU@5=ignored:--\n\
# server: reset by this end, half-closed (remote), stream 5\n\
server H@5=new:o- x@5=resets:-- dDhHrRwWpPuU@5=ignored:--\n\
# server: reset by this end, half-closed (local), stream 5\n\
server h@5=new:op e@5=ends:-p x@5=resets:-- dDhHrRwWpPuU@5=ignored:--\n\
# server: reset by this end, the last of 128, stream 1\n\
server h@1..199=new:op x@1..199=resets:-- h@201..255=new:op x@201..255=resets:-- dDhHrRwWpPuU@1=ignored:--\n\
# server: reset by this end, the last of 129, stream 1\n\
server h@1..199=new:op x@1..199=resets:-- h@201..257=new:op x@201..257=resets:-- dDhH@1=C5:-- rRwWpPuU@1=ignored:--\n\
# server: reset by this end, the last but one of 129, stream 3\n\
server h@1..199=new:op x@1..199=resets:-- h@201..257=new:op x@201..257=resets:-- dDhHrRwWpPuU@3=ignored:--\n\
# server: idle while 99 are open, stream 199\n\
server h@1..197=new:op dDrRwW@199=C1:-- pPuU@199=ignored:--\n\
server h@1..199=new:op d@199=goes:op hH@199=S1:op wW@199=goes:op pPuU@199=ignored:op\n\
server h@1..197=new:op H@199=new:o- dDhH@199=S5:o- wW@199=goes:o- pPuU@199=ignored:o-\n\
# server: idle while 100 are open, stream 201\n\
server h@1..199=new:op dDrRwW@201=C1:-- pPuU@201=ignored:--\n\
server h@1..199=new:op h@201=S7:-- dDhHrRwWpPuU@201=ignored:--\n\
server h@1..199=new:op H@201=S7:-- dDhHrRwWpPuU@201=ignored:--\n\
# server: even while 100 are open, stream 202\n\
server h@1..199=new:op dDhHrRwW@202=C1:-- pPuU@202=ignored:--\n\
# server: skipped while 100 are open, stream 199\n\
server h@1..197=new:op h@203=new:op dDhH@199=C5:-- rRwWpPuU@199=ignored:--\n\
# server: open while 100 are open, stream 1\n\
server h@1..199=new:op d@1=goes:op hH@1=S1:op wW@1=goes:op pPuU@1=ignored:op\n\
server h@1..199=new:op D@1=goes:o- dDhH@1=S5:o- wW@1=goes:o- pPuU@1=ignored:o-\n\
server h@1..199=new:op r@1=goes:-- dDhH@1=C5:-- rRwWpPuU@1=ignored:--\n\
server h@1..199=new:op R@1=goes:-- dDhH@1=C5:-- rRwWpPuU@1=ignored:--\n\
# server: half-closed (remote) while 100 are open, stream 3\n\
server h@1..199=new:op D@3=goes:o- dDhH@3=S5:o- wW@3=goes:o- pPuU@3=ignored:o-\n\
server h@1..199=new:op D@3=goes:o- r@3=goes:-- dDhH@3=C5:-- rRwWpPuU@3=ignored:--\n\
server h@1..199=new:op D@3=goes:o- R@3=goes:-- dDhH@3=C5:-- rRwWpPuU@3=ignored:--\n\
# server: idle while 100 are open, some half-closed, stream 201\n\
server h@1..199=new:op D@1=goes:o- e@3=ends:-p dDrRwW@201=C1:-- pPuU@201=ignored:--\n\
server h@1..199=new:op D@1=goes:o- e@3=ends:-p h@201=S7:-- dDhHrRwWpPuU@201=ignored:--\n\
server h@1..199=new:op D@1=goes:o- e@3=ends:-p H@201=S7:-- dDhHrRwWpPuU@201=ignored:--\n\
# server: refused while 100 are open, stream 201\n\
server h@1..199=new:op h@201=S7:-- dDhHrRwWpPuU@201=ignored:--\n\
# server: skipped by a refused one, stream 203\n\
server h@1..199=new:op h@205=S7:-- dDhH@203=C5:-- rRwWpPuU@203=ignored:--\n\
# server: idle, a refused one closed and one of 100 reset, stream 203\n\
server h@1..199=new:op h@201=S7:-- x@1=resets:-- dDrRwW@203=C1:-- pPuU@203=ignored:--\n\
server h@1..199=new:op h@201=S7:-- x@1=resets:-- h@203=new:op d@203=goes:op hH@203=S1:op wW@203=goes:op pPuU@203=ignored:op\n\
server h@1..199=new:op h@201=S7:-- x@1=resets:-- H@203=new:o- dDhH@203=S5:o- wW@203=goes:o- pPuU@203=ignored:o-\n\
# server: refused, and 127 resets since, stream 201\n\
server h@1..199=new:op h@201..455=S7:-- dDhHrRwWpPuU@201=ignored:--\n\
# server: refused, and 128 resets since, stream 201\n\
server h@1..199=new:op h@201..457=S7:-- dDhH@201=C5:-- rRwWpPuU@201=ignored:--\n\
# client: idle, nothing opened, stream 1\n\
client dDhHrRwW@1=C1:-- pPuU@1=ignored:--\n\
# client: idle, above all opened, stream 3\n\
client o@1/100=opens:op dDhHrRwW@3=C1:-- pPuU@3=ignored:--\n\
# client: idle, the largest number, stream 2147483647\n\
client o@1/100=opens:op dDhHrRwW@2147483647=C1:-- pPuU@2147483647=ignored:--\n\
# client: even, stream 2\n\
client o@1/100=opens:op dDhHrRwW@2=C1:-- pPuU@2=ignored:--\n\
# client: open, stream 1\n\
client o@1/100=opens:op dhwW@1=goes:op pPuU@1=ignored:op\n\
client o@1/100=opens:op D@1=goes:o- dDhH@1=S5:o- wW@1=goes:o- pPuU@1=ignored:o-\n\
client o@1/100=opens:op H@1=goes:o- dDhH@1=S5:o- wW@1=goes:o- pPuU@1=ignored:o-\n\
client o@1/100=opens:op r@1=goes:-- dDhH@1=C5:-- rRwWpPuU@1=ignored:--\n\
client o@1/100=opens:op R@1=goes:-- dDhH@1=C5:-- rRwWpPuU@1=ignored:--\n\
# client: half-closed (local), stream 1\n\
client o@1/100=opens:op e@1=ends:-p dhwW@1=goes:-p pPuU@1=ignored:-p\n\
client o@1/100=opens:op e@1=ends:-p D@1=goes:-- dDhH@1=C5:-- rRwWpPuU@1=ignored:--\n\
client o@1/100=opens:op e@1=ends:-p H@1=goes:-- dDhH@1=C5:-- rRwWpPuU@1=ignored:--\n\
client o@1/100=opens:op e@1=ends:-p r@1=goes:-- dDhH@1=C5:-- rRwWpPuU@1=ignored:--\n\
client o@1/100=opens:op e@1=ends:-p R@1=goes:-- dDhH@1=C5:-- rRwWpPuU@1=ignored:--\n\
# client: half-closed (remote) by HEADERS, stream 1\n\
client o@1/100=opens:op H@1=goes:o- dDhH@1=S5:o- wW@1=goes:o- pPuU@1=ignored:o-\n\
client o@1/100=opens:op H@1=goes:o- r@1=goes:-- dDhH@1=C5:-- rRwWpPuU@1=ignored:--\n\
client o@1/100=opens:op H@1=goes:o- R@1=goes:-- dDhH@1=C5:-- rRwWpPuU@1=ignored:--\n\
# client: half-closed (remote) by DATA, stream 1\n\
client o@1/100=opens:op D@1=goes:o- dDhH@1=S5:o- wW@1=goes:o- pPuU@1=ignored:o-\n\
client o@1/100=opens:op D@1=goes:o- r@1=goes:-- dDhH@1=C5:-- rRwWpPuU@1=ignored:--\n\
client o@1/100=opens:op D@1=goes:o- R@1=goes:-- dDhH@1=C5:-- rRwWpPuU@1=ignored:--\n\
# client: closed, this end ended last, stream 1\n\
client o@1/100=opens:op H@1=goes:o- e@1=ends:-- dDhH@1=C5:-- rRwWpPuU@1=ignored:--\n\
# client: closed, the peer ended last, stream 1\n\
client o@1/100=opens:op e@1=ends:-p D@1=goes:-- dDhH@1=C5:-- rRwWpPuU@1=ignored:--\n\
# client: closed by HEADERS of the peer, stream 1\n\
client o@1/100=opens:op e@1=ends:-p H@1=goes:-- dDhH@1=C5:-- rRwWpPuU@1=ignored:--\n\
# client: reset by the peer, stream 1\n\
client o@1/100=opens:op r@1=goes:-- dDhH@1=C5:-- rRwWpPuU@1=ignored:--\n\
# client: reset by this end, stream 1\n\
client o@1/100=opens:op x@1=resets:-- dDhHrRwWpPuU@1=ignored:--\n\
# client: reset by this end, the last of 128, stream 1\n\
client o@1..199/100=opens:op x@1..199=resets:-- o@201..255/100=opens:op x@201..255=resets:-- dDhHrRwWpPuU@1=ignored:--\n\
# client: reset by this end, the last of 129, stream 1\n\
client o@1..199/100=opens:op x@1..199=resets:-- o@201..257/100=opens:op x@201..257=resets:-- dDhH@1=C5:-- rRwWpPuU@1=ignored:--\n\
# client: reset by this end, the last but one of 129, stream 3\n\
client o@1..199/100=opens:op x@1..199=resets:-- o@201..257/100=opens:op x@201..257=resets:-- dDhHrRwWpPuU@3=ignored:--\n\
# client: open while 100 are open, stream 199\n\
client o@1..199/100=opens:op dhwW@199=goes:op pPuU@199=ignored:op\n\
client o@1..199/100=opens:op D@199=goes:o- dDhH@199=S5:o- wW@199=goes:o- pPuU@199=ignored:o-\n\
client o@1..199/100=opens:op H@199=goes:o- dDhH@199=S5:o- wW@199=goes:o- pPuU@199=ignored:o-\n\
client o@1..199/100=opens:op r@199=goes:-- dDhH@199=C5:-- rRwWpPuU@199=ignored:--\n\
client o@1..199/100=opens:op R@199=goes:-- dDhH@199=C5:-- rRwWpPuU@199=ignored:--\n\
# client: idle while 100 are open, stream 201\n\
client o@1..199/100=opens:op dDhHrRwW@201=C1:-- pPuU@201=ignored:--\n\
# client: streams opened\n\
client o@1/0=full:-- o@1/1=opens:op o@3/1=full:-- e@1=ends:-p o@3/1=full:-- D@1=goes:-- o@3/1=opens:op\n\
client o@1..5/3=opens:op o@7/3=full:-- r@3=goes:-- o@7/3=opens:op o@9/3=full:-- o@9/4=opens:op\n\
client o@1..199/100=opens:op o@201/100=full:-- o@201/4294967295=full:-- x@57=resets:-- o@201/101=opens:op o@203/101=full:--\n\
client o@1/100=opens:op x@1=resets:-- o@3/100=opens:op x@3=resets:-- o@5/100=opens:op h@7=C1:-- o@7/100=opens:op";

/// Random sequences of moves: those that show most of them in most states.
pub const SEQUENCES: &[u8] = b"\
server D@1=C1:-- h@1=new:op h@1=S1:op D@1=goes:o- HHDhh@1=S5:o- x@1=resets:-- UdDuPUwdWh@1=ignored:--\n\
server u@1=ignored:-- R@4=C1:-- U@1=ignored:-- h@5=new:op P@5=ignored:op e@5=ends:-p h@8=C1:-- d@3=C5:-- D@5=goes:-- Pp@5=ignored:-- hDHdd@5=C5:-- rUw@5=ignored:--\n\
client D@4=C1:-- rD@1=C1:-- o@1/5=opens:op D@1=goes:o- o@3/100=opens:op o@5/1=full:-- H@1=S5:o- h@3=goes:op r@3=goes:-- e@1=ends:-- p@1=ignored:-- d@3=C5:-- dH@1=C5:-- h@3=C5:-- whR@9=C1:-- HR@5=C1:--\n\
server wDr@1=C1:-- D@4=C1:-- H@1=new:o- r@1=goes:-- hDHd@1=C5:-- r@1=ignored:-- hh@1=C5:-- w@1=ignored:--\n\
client o@1/100=opens:op e@1=ends:-p w@4=C1:-- h@2=C1:-- P@1=ignored:-p x@1=resets:-- WrwhHD@1=ignored:-- P@6=ignored:-- H@1=ignored:--\n\
server H@6=C1:-- d@1=C1:-- u@6=ignored:-- h@1=new:op x@1=resets:-- dHDHRrdphr@1=ignored:--\n\
client u@4=ignored:-- r@4=C1:-- o@1/100=opens:op x@1=resets:-- DdUHPD@1=ignored:-- d@4=C1:--\n\
server h@2=C1:-- P@1=ignored:-- h@7=new:op d@7=goes:op Hh@7=S1:op r@7=goes:-- P@5=ignored:-- u@7=ignored:-- r@8=C1:-- p@1=ignored:-- h@7=C5:-- R@7=ignored:--\n\
server h@1=new:op e@1=ends:-p H@1=S1:-p w@1=goes:-p h@1=S1:-p d@1=goes:-p U@1=ignored:-p r@1=goes:-- w@4=C1:--\n\
client o@1/100=opens:op R@2=C1:-- dw@1=goes:op R@1=goes:-- h@3=C1:-- wRr@1=ignored:-- o@3/1=opens:op x@3=resets:--\n\
server h@1..199=new:op h@201..257=S7:-- R@255=ignored:-- U@17=ignored:op H@135=S1:op r@252=C1:-- w@57=goes:op r@17=goes:-- h@263=new:op e@151=ends:-p H@262=C1:-- e@75=ends:-p x@83=resets:--\n\
client d@1=C1:-- o@1/100=opens:op e@1=ends:-p d@1=goes:-p u@1=ignored:-p whh@1=goes:-p o@3/5=opens:op R@1=goes:-- H@3=goes:o-\n\
server H@1..199=new:o- H@201..261=S7:-- H@4=C1:-- D@260=C1:-- h@17=S5:o- w@5=goes:o- R@264=C1:-- U@258=ignored:-- u@195=ignored:o- w@193=goes:o- d@119=S5:o- r@3=goes:-- e@151=ends:-- D@1=S5:o- x@109=resets:-- d@219=ignored:-- W@37=goes:o- D@1=S5:o- x@149=resets:-- RW@256=C1:-- D@155=S5:o- H@131=S5:o-\n\
client u@1=ignored:-- o@1/1=opens:op D@1=goes:o- Dh@1=S5:o- u@1=ignored:o- ddh@1=S5:o- x@1=resets:-- d@1=ignored:--\n\
client o@1..199/100=opens:op e@1..199=ends:-p o@201..255/100=full:-- w@151=goes:-p u@85=ignored:-p d@198=C1:-- x@91=resets:--\n\
server d@4=C1:-- H@6=C1:-- h@2=C1:-- W@7=C1:-- R@1=C1:-- h@1=new:op W@1=goes:op Hh@1=S1:op R@1=goes:-- w@7=C1:-- r@1=ignored:-- hDh@1=C5:-- prW@1=ignored:-- h@1=C5:--\n\
client Dd@1=C1:-- o@1/3=opens:op Whh@1=goes:op r@1=goes:-- dH@1=C5:-- W@7=C1:-- p@1=ignored:-- Dh@1=C5:--\n\
server H@1=new:o- P@1=ignored:o- dd@1=S5:o- w@1=goes:o- w@5=C1:-- R@1=goes:-- d@1=C5:--\n\
client o@1..199/100=opens:op o@201/100=full:-- o@201/3=full:-- e@87=ends:-p W@202=C1:-- ooo@201/5=full:-- D@93=goes:o- d@205=C1:-- D@169=goes:o- W@13=goes:op oo@201/100=full:-- D@194=C1:-- U@181=ignored:op d@197=goes:op p@137=ignored:op U@202=ignored:-- h@111=goes:op o@201/100=full:-- x@31=resets:-- e@129=ends:-p o@201/3=full:-- x@189=resets:--\n\
client p@3=ignored:-- r@3=C1:-- o@1/100=opens:op r@3=C1:-- D@1=goes:o- R@6=C1:-- h@1=S5:o- WWw@1=goes:o- e@1=ends:-- ddhD@1=C5:--\n\
server h@5=new:op p@5=ignored:op w@1=ignored:-- U@5=ignored:op\n\
server D@2=C1:-- d@4=C1:-- p@1=ignored:-- h@7=new:op w@7=goes:op u@7=ignored:op h@3=C5:-- e@7=ends:-p x@7=resets:-- p@7=ignored:-- P@6=ignored:-- P@7=ignored:-- w@4=C1:-- dUdrr@7=ignored:--\n\
server h@1..199=new:op h@201=S7:-- e@1..199=ends:-p d@201=ignored:-- d@79=goes:-p W@135=goes:-p h@199=S1:-p d@193=goes:-p U@39=ignored:-p r@198=C1:-- x@173=resets:-- h@196=C1:-- r@113=goes:--\n\
client p@1=ignored:-- h@2=C1:-- dh@1=C1:-- u@1=ignored:-- HwD@1=C1:-- o@1/100=opens:op e@1=ends:-p U@4=ignored:-- o@3/100=opens:op W@2=C1:-- e@3=ends:-p D@1=goes:-- U@3=ignored:-p r@1=ignored:-- p@3=ignored:-p\n\
client r@1=C1:-- o@1/2=opens:op D@1=goes:o- r@1=goes:-- h@2147483646=C1:-- UWW@1=ignored:-- h@1=C5:-- H@5=C1:-- p@6=ignored:-- h@1=C5:--\n\
server h@1..199=new:op h@201..255=S7:-- D@247=ignored:-- e@71=ends:-p h@256=C1:-- H@127=S1:op D@149=goes:o- H@81=S1:op r@261=C1:-- D@255=ignored:-- h@181=S1:op h@101=S1:op W@123=goes:op d@33=goes:op w@145=goes:op h@199=S1:op r@1=goes:-- w@191=goes:op r@260=C1:-- d@259=C1:-- D@250=C1:--\n\
server p@6=ignored:-- dd@1=C1:-- U@4=ignored:--\n\
client H@4=C1:-- P@1=ignored:-- r@4=C1:-- wd@1=C1:--\n\
client o@1/4294967295=opens:op pP@1=ignored:op x@1=resets:-- pH@1=ignored:-- o@3..5/100=opens:op w@5=goes:op\n\
server H@1..199=new:o- x@1..199=resets:-- H@201..261=new:o- x@201..261=resets:-- d@5=C5:-- D@260=C1:-- H@1=C5:--\n\
client U@1=ignored:-- rr@1=C1:-- h@4=C1:-- o@1/3=opens:op HW@1=goes:o- P@1=ignored:o- H@1=S5:o- p@1=ignored:o- d@1=S5:o-\n\
server d@1=C1:-- H@1=new:o- P@1=ignored:o- h@1=S5:o- p@1=ignored:o- r@1=goes:-- uw@1=ignored:-- dhd@1=C5:-- UP@1=ignored:--\n\
client D@5=C1:-- rh@1=C1:-- o@1/100=opens:op u@1=ignored:op e@1=ends:-p H@1=goes:-- H@1=C5:-- ww@1=ignored:-- o@3/5=opens:op\n\
server H@1=new:o- Uu@1=ignored:o- h@1=S5:o- e@1=ends:-- hd@1=C5:--\n\
server h@1..199=new:op e@1..199=ends:-p h@201..253=S7:-- P@237=ignored:-- h@249=ignored:-- r@69=goes:-- H@1=S1:-p h@199=S1:-p D@113=goes:-- x@79=resets:-- d@87=goes:-p d@253=ignored:-- H@251=ignored:-- d@113=C5:-- D@227=ignored:-- x@43=resets:-- h@248=C1:--\n\
server H@3=new:o- d@3=S5:o- e@3=ends:-- hh@3=C5:-- r@3=ignored:-- h@3=C5:-- H@1=C5:-- rU@3=ignored:-- P@5=ignored:-- d@3=C5:-- RrW@3=ignored:--\n\
server h@3=new:op D@3=goes:o- h@3=S5:o- h@5=new:op D@1=C5:-- W@1=ignored:-- e@3=ends:-- e@5=ends:-p d@6=C1:-- w@8=C1:-- p@5=ignored:-p p@3=ignored:-- r@9=C1:-- W@5=goes:-p Hh@5=S1:-p d@3=C5:-- H@5=S1:-p d@5=goes:-p r@5=goes:--\n\
server w@5=C1:-- h@1=new:op e@1=ends:-p hhhh@1=S1:-p P@1=ignored:-p R@1=goes:-- d@1=C5:--\n\
client o@1/3=opens:op e@1=ends:-p p@1=ignored:-p W@1=goes:-p r@1=goes:-- R@1=ignored:-- d@1=C5:-- P@1=ignored:-- o@3/100=opens:op w@3=goes:op h@1=C5:-- p@3=ignored:op o@5/4294967295=opens:op U@3=ignored:op w@3=goes:op h@10=C1:-- h@3=goes:op\n\
client o@1..199/100=opens:op o@201..255/100=full:-- H@5=goes:o- d@201=C1:-- o@201/5=full:-- o@201/2=full:-- e@69=ends:-p e@171=ends:-p h@171=goes:-p h@202=C1:-- o@201/5=full:--\n\
client o@1..3/100=opens:op r@1=goes:-- x@3=resets:-- h@1=C5:-- HR@3=ignored:-- h@1=C5:-- u@1=ignored:-- U@3=ignored:--\n\
server h@1..199=new:op e@1..199=ends:-p h@201..255=S7:-- D@63=goes:-- D@27=goes:-- w@137=goes:-p W@253=ignored:-- d@105=goes:-p\n\
server h@1..199=new:op h@201..261=S7:-- D@105=goes:o- e@93=ends:-p e@101=ends:-p D@264=C1:-- D@13=goes:o- p@93=ignored:-p w@257=ignored:--\n\
client o@1..199/100=opens:op o@201..253/100=full:-- H@204=C1:-- d@67=goes:op o@201/2=full:-- u@198=ignored:-- w@145=goes:op R@35=goes:-- P@81=ignored:op x@131=resets:-- w@3=goes:op R@197=goes:-- w@73=goes:op o@201/100=opens:op h@199=goes:op h@31=goes:op e@109=ends:-p U@187=ignored:op o@203/100=opens:op r@13=goes:-- d@4=C1:-- d@93=goes:op\n\
server h@1..199=new:op h@201..261=S7:-- h@169=S1:op w@267=C1:-- h@187=S1:op H@15=S1:op h@49=S1:op h@75=S1:op d@258=C1:-- H@261=ignored:-- e@33=ends:-p d@107=goes:op r@87=goes:-- d@53=goes:op D@264=C1:-- r@35=goes:-- p@165=ignored:op d@263=C1:--\n\
server H@1..199=new:o- H@201=S7:-- H@1=S5:o- D@33=S5:o- x@27=resets:-- w@107=goes:o- D@173=S5:o- h@197=S5:o- h@196=C1:-- e@195=ends:-- d@19=S5:o- P@115=ignored:o- x@93=resets:-- h@3=S5:o- h@145=S5:o- w@200=C1:-- h@201=ignored:-- H@69=S5:o- r@35=goes:--\n\
server h@1..199=new:op U@201=ignored:-- d@7=goes:op D@189=goes:o- D@145=goes:o- u@5=ignored:op w@204=C1:-- D@57=goes:o- p@147=ignored:op x@161=resets:-- x@23=resets:-- x@35=resets:-- x@179=resets:-- U@187=ignored:op d@193=goes:op H@198=C1:-- w@121=goes:op e@143=ends:-p r@165=goes:-- H@201=new:o- e@53=ends:-p e@193=ends:-p e@131=ends:-p D@191=goes:o- d@123=goes:op\n\
client D@4=C1:-- o@1/2=opens:op H@3=C1:-- d@1=goes:op H@1=goes:o- o@3/4294967295=opens:op e@1=ends:-- R@1=ignored:-- x@3=resets:-- p@1=ignored:-- o@5/3=opens:op P@5=ignored:op h@7=C1:-- D@5=goes:o- WP@1=ignored:-- d@5=S5:o- h@3=ignored:-- d@9=C1:-- e@5=ends:--\n\
server H@1..199=new:o- H@201=S7:-- P@87=ignored:o- e@125=ends:-- x@73=resets:-- h@65=S5:o- r@129=goes:-- h@1=S5:o- d@123=S5:o- r@77=goes:-- D@15=S5:o- e@121=ends:--\n\
server H@5=new:o- R@1=ignored:-- e@5=ends:-- h@5=C5:--\n\
client o@1..199/100=opens:op e@1..199=ends:-p o@201..255/100=full:-- o@201/4294967295=full:-- P@17=ignored:-p x@109=resets:-- W@29=goes:-p o@201/2=full:-- o@201/100=opens:op r@23=goes:-- u@201=ignored:op o@203/100=opens:op d@202=C1:-- o@205/3=full:-- o@205/100=full:-- w@159=goes:-p d@119=goes:-p R@25=goes:-- H@209=C1:-- D@200=C1:-- h@203=goes:op H@202=C1:-- D@197=goes:-- P@53=ignored:-p d@123=goes:-p\n\
server P@6=ignored:-- H@6=C1:-- d@2147483645=C1:-- h@1=new:op e@1=ends:-p u@1=ignored:-p h@1=S1:-p dd@1=goes:-p D@1=goes:-- h@3=new:op D@3=goes:o- e@3=ends:-- u@3=ignored:--\n\
client o@1/100=opens:op x@1=resets:-- uddhddwD@1=ignored:--\n\
client o@1..199/100=opens:op o@201..253/100=full:-- o@201/2=full:-- e@187=ends:-p D@199=goes:o- P@2147483647=ignored:-- d@197=goes:op u@205=ignored:-- d@203=C1:-- o@201/3=full:--\n\
server h@5=new:op x@5=resets:-- u@1=ignored:-- h@5=ignored:--\n\
client o@1/5=opens:op D@1=goes:o- e@1=ends:-- D@1=C5:-- U@1=ignored:--\n\
server r@1=C1:-- h@3=new:op x@3=resets:-- r@1=ignored:-- wd@3=ignored:--\n\
server h@7=new:op x@7=resets:-- HHPHr@7=ignored:-- U@3=ignored:-- rD@7=ignored:--\n\
server h@1..199=new:op x@1..199=resets:-- h@201..261=new:op x@201..261=resets:-- w@59=ignored:-- h@243=ignored:-- D@21=ignored:-- w@1=ignored:-- D@255=ignored:-- r@173=ignored:-- h@267=new:op d@5=C5:-- ww@267=goes:op h@1=C5:--\n\
client o@1/4294967295=opens:op H@1=goes:o- U@1=ignored:o- x@1=resets:-- d@1=ignored:--";
