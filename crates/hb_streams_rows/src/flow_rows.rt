//! Steps on the windows of a connection, worked by hand from RFC 9113 section 6.9.
//!
//! A line has steps in their order, from a new connection on: a letter, `@` and a stream, `/` and octets, `+` and the
//! octets that haven't begun, `=` and what the step is answered. Without `@` it is a step on the connection.
//!
//! `o` opens a stream, `c` closes it, `s` sends DATA where so much may be sent and `b` also takes it back, `g` grants,
//! `z` changes the initial size, with octets of the stream behind `@` that haven't begun. `t` takes DATA that comes, and
//! `u` uses up what came; on the connection `u` takes it before. `d` asks what is due, `r` what may be sent, and `k` what
//! came and isn't used up; `l` asks the largest initial size, with octets that haven't begun as `z`. A step that is
//! refused is answered with what the window holds and what was asked.

pub const SENDING: &[u8] = b"\
# 65,535 octets, and then an update on one window alone\n\
o@1=ok r@1=65535 s@1/65536=no s@1/65535=ok r@1=0 s@1/1=no g/1=ok r@1=0 g@1/1=ok r@1=1 s@1/2=no s@1/1=ok r@1=0\n\
o@1=ok s@1/65535=ok g@1/100=ok r@1=0 s@1/1=no g/70=ok r@1=70 s@1/71=no s@1/70=ok r@1=0 g/30=ok r@1=30\n\
# streams are apart, and share the window of the connection\n\
o@1=ok o@3=ok s@1/65535=ok r@3=0 g/10=ok r@1=0 r@3=10 s@3/4=ok r@3=6 g@1/8=ok r@1=6 s@1/6=ok r@3=0 r@1=0 g/90000=ok r@1=2 r@3=65531\n\
# a stream without windows, before and after it has some\n\
r@1=0 s@1/0=ok s@1/1=no g@1/4294967295=ok r@1=0 g/1=ok o@1=ok r@1=65535 c@1=ok c@1=ok r@1=0 s@1/1=no\n\
o@1=ok s@1/65535=ok g/65535=ok r@1=0 c@1=ok r@1=0 o@1=ok r@1=65535\n\
# DATA that is taken back comes back to both windows\n\
o@1=ok b@1/65535=ok r@1=65535 s@1/65535=ok r@1=0\n\
o@1=ok o@3=ok b@1/65535=ok r@3=65535 s@3/1=ok r@1=65534 b@1/65534=ok r@1=65534\n";

pub const SIZES: &[u8] = b"\
# 60 KB are sent, and the initial size becomes 16 KB: the window is 44 KB below zero\n\
o@1=ok s@1/61440=ok z/16384=ok g/61440=ok r@1=0 s@1/0=ok s@1/1=no g@1/45056=ok r@1=0 g@1/1=ok r@1=1\n\
# to nothing, with DATA in flight, and back\n\
o@1=ok s@1/65535=ok g/100000=ok z/0=ok r@1=0 g@1/65534=ok r@1=0 g@1/1=ok r@1=0 g@1/5=ok r@1=5 z/65535=ok r@1=65540\n\
z/0=ok o@1=ok r@1=0 g@1/7=ok r@1=7 z/5=ok r@1=12 z/4=ok r@1=11\n\
# each stream that has windows, and those that come later, but never the connection\n\
o@1=ok o@3=ok o@4294967295=ok s@3/10=ok z/100=ok r@1=100 r@3=90 r@4294967295=100 o@5=ok r@5=100 o@0=ok r@0=100\n\
o@1=ok z/100000=ok r@1=65535 g/34465=ok r@1=100000 g/1=ok r@1=100000 s@1/100000=ok r@1=0 g@1/9=ok r@1=1\n\
z/1=ok z/2=ok z/3=ok o@7=ok r@7=3 s@7/3=ok z/1=ok r@7=0 c@7=ok o@7=ok r@7=1\n";

pub const LARGEST: &[u8] = b"\
# a window of 2,147,483,647 octets, and one octet more\n\
g/2147418112=ok g/1=2147483647+1 o@1=ok s@1/1=ok g/2=2147483646+2 g/1=ok g/0=ok g/1=2147483647+1\n\
g/2147418113=65535+2147418113 o@1=ok r@1=65535 g/2147418112=ok g/4294967295=2147483647+4294967295\n\
o@1=ok g@1/2147418112=ok g@1/1=2147483647+1 s@1/5=ok g@1/6=2147483642+6 g@1/5=ok g@1/0=ok\n\
o@1=ok o@3=ok g@1/2147418113=65535+2147418113 r@1=65535 g@3/2147418112=ok g@1/2147418112=ok\n\
# by a change of the initial size\n\
o@1=ok z/2147483647=ok r@1=65535 g@1/1=2147483647+1\n\
o@1=ok g@1/1=ok z/2147483647=65536+2147418112\n\
z/0=ok o@1=ok g@1/2147483646=ok z/1=ok z/2=2147483647+1\n\
o@1=ok o@3=ok o@5=ok g@3/1=ok z/2147483647=65536+2147418112\n\
# with DATA that hasn't begun, which counts as not spent, on its own stream alone\n\
o@1=ok s@1/10=ok g/2147418113+10=65535+2147418113 g/2147418112+10=ok\n\
o@1=ok s@1/10=ok g/2147418123=65525+2147418123 g/2147418122=ok\n\
o@1=ok s@1/10=ok g@1/2147418113+10=65535+2147418113 g@1/2147418112+10=ok g@1/11=2147483637+11 g@1/10=ok\n\
z/0=ok o@1=ok g@1/2147483640=ok s@1/5=ok z@1/8+5=2147483640+8\n\
z/0=ok o@1=ok g@1/2147483640=ok s@1/5=ok z@1/7+5=ok g@1/6=2147483642+6 g@1/5=ok\n\
z/0=ok o@1=ok g@1/2147483640=ok s@1/5=ok z@3/12+5=ok g@1/1=2147483647+1\n\
# the largest initial size that all streams allow, also below zero, where DATA that hasn't begun counts as not spent\n\
l=2147483647 o@1=ok l=2147483647 g@1/1=ok l=2147483646 o@3=ok g@3/10=ok l=2147483637 c@3=ok l=2147483646\n\
o@1=ok g@1/5=ok o@3=ok l=2147483642 o@5=ok g@5/9=ok l=2147483638 g@1/5=ok l=2147483637 z/2147483637=ok z/2147483638=2147483647+1\n\
o@1=ok g@1/1=ok s@1/3=ok l=2147483647 l@3+3=2147483647 l@1+2=2147483647 l@1+3=2147483646\n\
z/0=ok o@1=ok g@1/2147483647=ok l=0 s@1/1=ok l=1 l@1+1=0 l@1+2=-1\n";

pub const TAKING: &[u8] = b"\
# the octet behind the 65,535th, on the connection and on a stream\n\
t/65536=65535+65536 t/65535=ok t/0=ok t/1=0+1\n\
o@1=ok t@1/65536=65535+65536 k@1=0 t@1/65535=ok t@1/0=ok t@1/1=0+1 k@1=65535 t/65535=ok\n\
o@1=ok t@1/40000=ok t@1/25536=25535+25536 t@1/25535=ok k@1=65535\n\
# 32,768 octets are worth granting\n\
u/32767=ok d=none u/1=ok d=32768 d=none t/65535=ok t/1=0+1\n\
u/32768=ok t/32768=32767+32768 d=32768 t/65535=ok\n\
u/65535=ok d=65535 t/65536=65535+65536\n\
o@1=ok t@1/65535=ok u@1/32767=ok d@1=none u@1/1=ok k@1=32767 d@1=32768 d@1=none t@1/32769=32768+32769 t@1/32768=ok k@1=65535\n\
o@1=ok t@1/65535=ok u@1/65535=ok d=none d@1=65535 k@1=0 t@1/65535=ok u@1/65536=no\n\
# 1,000 octets of data and 11 of padding: the padding is used up at once\n\
o@1=ok t@1/1011=ok u@1/11=ok k@1=1000 t@1/40000=ok u@1/32756=ok d@1=none u@1/1=ok d@1=32768 k@1=8243\n\
# streams are apart\n\
o@1=ok o@3=ok t@1/65535=ok t@3/65535=ok u@1/32768=ok d@3=none k@3=65535 d@1=32768 t@3/1=0+1 t@1/32768=ok t@1/1=0+1\n\
# without windows, and with new ones\n\
t@1/70000=ok k@1=0 d@1=none o@1=ok t@1/65535=ok k@1=65535 c@1=ok k@1=0 t@1/1=ok o@1=ok k@1=0 t@1/65535=ok\n\
# the peer's initial size is nothing to them\n\
z/0=ok o@1=ok t@1/65535=ok t@1/1=0+1 z/100000=ok t@1/1=0+1 t/65535=ok t/1=0+1\n";
