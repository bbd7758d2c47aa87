//! Tables of texts: a line each, with what comes of a text before the bar, and the text behind it. Where a text may have line breaks, a tilde ends
//! each line.

/// How many nodes the main line of a tree has, and how many bytes stand up to its end; or that it is none.
pub(crate) const TREES: &str = "\
4 32|(;GM[1]FF[4]SZ[2];B[aa];W[];B[])~\
2 26|(;SZ[3:1](;B[aa])(;B[ba]))~\
1 20|x(;SZ[2:1]AB[ba:aa])~\
1 28|(;C[a\\]b]GaMe[1]SiZe[1]X2[])~\
1 8|(;SZ[1])(;SZ[1];B[aa])(;SZ[0])~\
1 7|\u{feff}(;\n)~\
3 13|x(;\x0b\x0c;\x0b\x0c;\n\n ) ~\
2 8|(;\x0b\x0c; \n)y~\
2 10|(;(\x0b\x0c;)\t\r)y~\
syntax|~\
syntax|(;GM[1]~\
syntax|(;C[\\]~\
syntax|(;C[]])~\
syntax|() ~\
syntax|(\n \\()A~\
syntax|(;A\r\n\x0b\x0c)y~\
syntax|x( ;a\x0b\x0c\x0b\x0c;  ) ~\
syntax|(; \x0b\x0c; (\n; ;SiZe\x0b\x0c[ b[] B2[a]\n[])(;)~\
syntax|\u{feff}(\x0b\x0c;b[b]\nb[)(]\n\t\r)~\
syntax|(;A[1](;B[aa]);C[2])~\
syntax|x;\x0b\x0c;C[]\x0b;)~\
syntax|B)[Aa(B(1~\
";

/// Numbers.
pub(crate) const NUMBERS: &str = "\
19| +0019\n~\
0|0~\
65535|65535~\
none|65536~\
none|~\
none|+~\
none|-1~\
none|1 2~\
none|\\1~\
";

/// The columns and the rows of a board.
pub(crate) const SIZES: &str = "\
19 19|19~\
2 2|+02~\
3 1| 3:1 ~\
2 3|+2:003~\
4 4|4:4~\
none|20~\
none|2:20~\
none|0~\
none|2 :3~\
none|2:3:4~\
";

/// The numbers of points on a board of one row of 19 points, and passes.
pub(crate) const POINTS: &str = "\
18|sa~\
0|\taa ~\
pass| tt ~\
pass|~\
none|ab~\
none|Aa~\
none|ta~\
";

/// How many points the first property names on that board, and the number of the least of them.
pub(crate) const LISTS: &str = "\
2 0|(;AB[ba:aa])~\
4 1|(;SQ[da:ba][ba][ea])~\
1 2|(;SQ[ca:ca])~\
bad|(;SQ[tt])~\
bad|(;SQ[aa][])~\
bad|(;SQ[aa:ab])~\
";

/// Where a problem is refused: the number, the node, the value that can't be read, the point at fault.
pub(crate) const FAULTS: &str = "\
10 1 - -|(;GM[3]SZ[0];B[zz])~\
11 1 - -|(;GM[1]SZ[20]TR[zz])~\
12 2 AB[dd] -|(;SZ[3];AB[aa][bb][dd][ee]AW[zz])~\
12 1 AW[bd] -|(;SZ[3]AB[aa]AW[bb:cc]AW[ac][bd]AE[zz]PL[X])~\
12 1 AE[dd] -|(;SZ[3]AW[aa]AE[bb]AE[dd])~\
12 1 PL[red] -|(;SZ[3]AW[aa]PL[red][B];B[zz])~\
12 1 PL[] -|(;SZ[3]AW[aa][bb]AB[bb]PL[])~\
12 2 B[a] -|(;SZ[3];B[a];B[zz])~\
12 3 W[cd] -|(;SZ[3];B[aa];C[x]W[cd]TR[zz])~\
12 1 TR[tt] -|(;SZ[3]AW[aa]TR[aa][tt]SQ[zz])~\
12 2 SQ[] -|(;SZ[3]AW[aa];PL[W]TR[aa]SQ[bb][])~\
13 1 - bb|(;SZ[3]AB[aa]AB[bb]AW[cc]AW[bb])~\
13 2 - ba|(;SZ[3];AB[aa:cc]AW[bb]AE[ba];B[zz])~\
13 1 - ca|(;SZ[3]AW[ca][ab]AE[ab][ca])~\
14 2 - -|(;SZ[3];AB[aa]B[zz])~\
14 3 - -|(;SZ[3];B[aa];W[bb]B[zz])~\
14 2 - -|(;SZ[3];B[aa][bb])~\
15 1 - aa|(;SZ[3]AB[aa][ba]AW[ca][ab][bb])~\
15 2 - ba|(;SZ[3]AW[ba];AB[aa][bb][ca];B[zz])~\
16 3 - aa|(;SZ[2];B[aa];W[aa])~\
17 2 - aa|(;SZ[1];B[aa];B[zz])~\
17 5 - aa|(;SZ[2:1];B[aa];W[ba];B[];W[aa])~\
18 4 - aa|(;SZ[2];B[];W[];B[aa];B[zz])~\
18 3 - aa|(;SZ[2];B[];B[aa])~\
20 - - -|(;SZ[3]AW[aa])~\
22 1 - bb|(;SZ[3]AW[aa]TR[aa][bb:cc];B[zz])~\
22 2 - aa|(;SZ[2:1]AW[aa];B[ba]TR[aa])~\
23 1 - ca|(;SZ[4:1]AB[aa]AW[ca]TR[aa][ca])~\
23 2 - ba|(;SZ[3]AW[ba][cc]AB[aa];PL[W]TR[aa][ba][cc])~\
";

/// Black's points, White's and whether the game is over; or the number of the refusal.
pub(crate) const RECORDS: &str = "\
4 0 finished|(;GM[1]FF[4]SZ[2];B[aa];W[];B[])~\
361 0 finished|(;GM[1]SZ[19];B[ss];W[tt];B[])~\
0 0 unfinished|(;SZ[1])~\
17|(;SZ[1];B[aa])~\
17|(;SZ[2:1];B[aa];W[ba];B[];W[aa])~\
0 4 unfinished|(;SZ[4:1]AB[aa]AW[ca];B[ba])~\
3 0 unfinished|(;SZ[3:1];B[aa];B[ba])~\
18|(;SZ[2];B[];W[];B[aa])~\
15|x(;SZ[2:1]AB[ba:aa])~\
11|(;SZ[0])~\
13|(;SZ[2]AB[aa]AW[aa])~\
14|(;SZ[2]AB[aa];B[bb]AW[ab])~\
10|(;GM[3])~\
12|(;SZ[2];B[ca])~\
16|(;SZ[2]AB[aa];B[aa])~\
1 1 unfinished|(;SZ[3:1]AB[aa];W[ca]PL[W])~\
3 0 unfinished|(;SZ[3:1](;B[aa])(;B[ba]))~\
9 0 unfinished|(;SZ[3]AW[ba][ab]AB[ca][bb][ac];B[aa])~\
19 0 unfinished|(;SZ[19:1];B[sa])~\
14|(;B[aa] [bb])~\
11|(;SZ[20])~\
11|(;SZ[2:20])~\
0 0 unfinished|(;SZ[+02])~\
11|(;SZ[2 :3])~\
18|(;SZ[2];B[];B[aa])~\
10|(;GM[2]SZ[2])~\
12|(;SZ[2]PL[x])~\
0 0 unfinished|(;SZ[2]PL[B\\]])~\
";

/// The number of a problem's refusal, or 0; the problem; and a dash for each of its legal turns.
pub(crate) const PROBLEMS: &str = "\
20|(;SZ[2:1]AW[ba])|
22|(;SZ[2:1]TR[aa])|
0|(;SZ[4:1]AW[ba][da]PL[B]TR[ba][da])|  - -
0|(;SZ[4:1]AW[ba][da]PL[B]TR[ba][ba])|  - -
0|(;SZ[4:1]AW[ba][da]PL[B]TR[ba:ba])|  - -
23|(;SZ[4:1]AB[aa]AW[ca]TR[aa][ca])|
22|(;SZ[4:1]AW[ca]TR[ca][aa])|
22|(;SZ[4:1]AB[aa]AW[ca]TR[aa:ca])|
12|(;SZ[4:1]AB[aa]AW[ca]TR[aa][ca]SQ[ea])|
12|(;SZ[2:1]AW[ba]TR[ca])|
12|(;SZ[2:1]AW[ba]TR[ba]SQ[ca])|
0|(;SZ[4:1]AW[ba];B[ca];W[da]TR[ba])|    -
0|(;SZ[4:1]AW[ba][da]PL[B]TR[ba])|  - -
0|(;SZ[4:1]AW[ba][da]PL[B]C[Two stones, and one of them is meant.]TR[ba])|  - -
";

/// What comes of a certificate at a problem, or the number of the refusal; the problem; and the certificate.
pub(crate) const CERTIFICATES: &str = "\
fails|(;SZ[4:1]AW[ba][da]PL[B]TR[ba])|lives ?--!--.;
wins|(;SZ[4:1]AW[ba];B[ca];W[da]TR[ba])|lives ?--!--.;
30|(;SZ[4:1]AW[ba];B[ca];W[da]TR[ba])|lives ?--!--.
fails|(;SZ[4:1]AW[ba][da]PL[B]TR[ba])|killed !ca?aa.;
wins|(;SZ[4:1]AW[ba][da]PL[B]TR[ba])|killed !ca?aa.--!aa.;
fails|(;SZ[4:1]AW[ba];B[ca];W[da]TR[ba])|killed !ca?aa.--!aa.;
fails|(;SZ[4:1]AW[ba][da]PL[W]TR[ba])|lives !--.
wins|(;SZ[4:1]AW[ba][da]PL[B]TR[ba])|killed !ca?aa.da.--!aa.;
30|(;SZ[4:1]AW[ba][da]PL[B]TR[ba])|killed !ca?--!aa.aa.;
wins|(;SZ[2:1]AW[ba]PL[W]TR[ba])|killed ?aa.--!aa.;
fails|(;SZ[2:1]AW[ba]PL[W]TR[ba])|killed ?aa.;
fails|(;SZ[4:1]AW[ba][da]PL[B]TR[ba])|lives .
fails|(;SZ[4:1]AW[ba][da]PL[B]TR[ba])|killed ?;
30|(;SZ[4:1]AW[ba][da]PL[B]TR[ba])|killed !cc.
30|(;SZ[4:1]AW[ba][da]PL[B]TR[ba])|
22|(;SZ[2:1]TR[aa])|xyz
1||
";

/// What is so of a proof and a line: whether it has the line's key, fits the line and stands there, a letter each or a dash; the
/// problem that is proved and the certificate; and the problem of the line.
pub(crate) const FITS: &str = "\
kfs|(;SZ[4:1]AW[ba][da]PL[B]TR[ba])|killed !ca?aa.--!aa.;|(;SZ[4:1]AW[ba][da]PL[B]TR[ba])
k--|(;SZ[4:1]AW[ba][da]PL[B]TR[ba])|killed !ca?aa.--!aa.;|(;SZ[4:1]AW[ba];B[ca];W[da]TR[ba])
kf-|(;SZ[4:1]AW[ba][da]PL[B]TR[ba])|killed !ca?aa.--!aa.;|(;SZ[4:1]AW[da]PL[W];W[ba]TR[ba])
---|(;SZ[4:1]AW[ba][da]PL[B]TR[ba])|killed !ca?aa.--!aa.;|(;SZ[4:1]AW[ba][da]PL[W]TR[ba])
k--|(;SZ[4:1]AW[ba];B[ca];W[da]TR[ba])|lives ?--!--.;|(;SZ[4:1]AW[ba][da]PL[B]TR[ba])
kfs|(;SZ[4:1]AW[ba];B[ca];W[da]TR[ba])|lives ?--!--.;|(;SZ[4:1]AW[ba];B[ca];W[da]TR[ba])
";
