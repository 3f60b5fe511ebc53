//! The packets of the worked rows.

/// The packets by their names, each a letter, a digit or a sign, as text: a name and the bytes of its frame. The lines
/// that begin with `#` say which they are.
pub(super) const FRAMES: &str =
    r#"# Publishes to "a" with their name as payload: `0`, `1` and `2` of that QoS, `w` of QoS 2, and with id 2 `o` of
# QoS 2 and `v` of QoS 1.
0 30 05 00 01 61 00 30
1 32 07 00 01 61 00 01 00 31
2 34 07 00 01 61 00 01 00 32
w 34 07 00 01 61 00 01 00 77
o 34 07 00 01 61 00 02 00 6F
v 32 07 00 01 61 00 02 00 76
# Of QoS 1, with the ids 1 to 5, and then 1, 2 and 2.
B 32 07 00 01 61 00 01 00 42
F 32 07 00 01 61 00 02 00 46
G 32 07 00 01 61 00 03 00 47
I 32 07 00 01 61 00 04 00 49
J 32 07 00 01 61 00 05 00 4A
Q 32 07 00 01 61 00 01 00 51
T 32 07 00 01 61 00 02 00 54
V 32 07 00 01 61 00 02 00 56
# With alias 1: `3` and `4` of QoS 1 with ids 3 and 1, and `5` of QoS 0.
3 32 0A 00 01 61 00 03 03 23 00 01 33
4 32 0A 00 01 61 00 01 03 23 00 01 34
5 30 08 00 01 61 03 23 00 01 35
# Of QoS 1 with id 7: under alias 9 to "a/b", to no topic and to "long", and under alias 5 to "a/b".
6 32 0B 00 03 61 2F 62 00 07 03 23 00 09
7 32 08 00 00 00 07 03 23 00 09
8 32 0C 00 04 6C 6F 6E 67 00 07 03 23 00 09
9 32 0B 00 03 61 2F 62 00 07 03 23 00 05
# Of QoS 1 with id 1, "hi" to "a/b": with `dup`, and without.
} 3A 0A 00 03 61 2F 62 00 01 00 68 69
{ 32 0A 00 03 61 2F 62 00 01 00 68 69
# Of QoS 2 with id 3.
f 34 07 00 01 61 00 03 00 66
# Of QoS 2 with id 7: to "a", and to no topic under alias 9.
& 34 07 00 01 61 00 07 00 78
] 34 08 00 00 00 07 03 23 00 09
# PubAck of the ids 0, 3 and 65,535, and of 1; with quota exceeded.
x 40 02 00 00
y 40 02 00 03
z 40 02 FF FF
A 40 02 00 01
a 40 04 00 01 97 00
# PubAck of the ids 2, 7 and 101.
b 40 02 00 02
q 40 02 00 07
i 40 02 00 65
# PubRec; with no matching subscribers; with quota exceeded.
R 50 02 00 01
n 50 04 00 01 10 00
r 50 04 00 01 97 00
# PubRel and PubComp; with identifier not found.
L 62 02 00 01
l 62 04 00 01 92 00
C 70 02 00 01
c 70 04 00 01 92 00
# PubRec of the ids 2 and 3, PubRel of 2 and 3, PubComp of 3.
W 50 02 00 02
t 50 02 00 03
m 62 02 00 02
e 62 02 00 03
g 70 02 00 03
# PubRec, PubRel and PubComp of id 7.
( 50 02 00 07
) 62 02 00 07
[ 70 02 00 07
# Subscribe and SubAck, Unsubscribe, Unsubscribe without filters, UnsubAck.
S 82 07 00 01 00 00 01 61 01
s 90 04 00 01 00 01
U A2 06 00 01 00 00 01 61
E A2 03 00 01 00
u B0 04 00 01 00 00
# Unsubscribe of id 2, Subscribe of id 3.
% A2 06 00 02 00 00 01 61
$ 82 07 00 03 00 00 01 61 01
# PingReq and PingResp.
P C0 00
p D0 00
# ConnAck with a receive maximum of 2, and of success and of a busy server with one of 1 and an alias maximum of
# 3.
M 20 06 00 00 03 21 00 02
K 20 09 00 00 06 21 00 01 22 00 03
k 20 09 00 89 06 21 00 01 22 00 03
# ConnAck with a receive maximum of 0 and of 9, and with an alias maximum of 4 and of 5.
X 20 06 00 00 03 21 00 00
Y 20 06 00 00 03 21 00 09
j 20 06 00 00 03 22 00 04
Z 20 06 00 00 03 22 00 05
# Disconnect; of a server that shuts down.
D E0 00
d E0 02 8B 00
# Disconnect for a protocol error.
O E0 02 82 00
# Auth of success and one that goes on, and Connect.
H F0 02 00 00
h F0 02 18 00
N 10 0E 00 04 4D 51 54 54 05 02 00 3C 00 00 01 63
"#;
