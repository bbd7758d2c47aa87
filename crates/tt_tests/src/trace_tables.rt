//! A table of traces: a line each, with the problem, the budget, the limit on depth, how many proofs the store keeps, and the traces of
//! two searches over one store. A bar ends each part but the last one.

pub(crate) const TRACES: &str = "\
(;SZ[3:2];AW[ab][bb]PL[B]TR[bb]SQ[aa][ab][cb][ca][ba])|40|512|2|E1,5 E1,5 E1,5 E1,5 E1,5 E4,4 E4,4 E4,4 E4,4 E4,5 E4,5 E4,4 E3,4 E3,4 E3,4 E3,6 E3,6 E3,6 E2,6 E2,6 E2,6 E3,5 E3,5 E2,6 E2,6 E2,6 E3,6 E3,6 E2,7 E2,7 E2,7 E3,6 E2,6 E1,7 E1,7 E3,6 E3,6 E2,6 E1,8 E1,8 B1,8 40 2|E1,5 E1,5 E1,5 E1,5 E1,5 C4,4 E4,4 E4,4 E4,4 E4,5 E4,5 C4,4 E3,4 E3,4 E3,4 E3,6 E3,6 E3,6 E2,6 E2,6 E2,6 E3,5 E3,5 E2,6 E2,6 E2,6 E3,6 E3,6 E2,7 E2,7 E2,7 E3,6 E2,6 E1,7 E1,7 E3,6 E3,6 E2,6 E1,8 E1,8 E1,8 E3,7 B3,7 40 2
(;SZ[2]AW[ab]PL[W];W[];B[aa]TR[ab])|8|0|0|D1,1 0 0|D1,1 0 0
(;SZ[1:3]AW[aa];B[ac];W[ab]TR[ab])|40|0|0|D1,1 0 0|D1,1 0 0
(;SZ[1:3];AB[aa]PL[B];TR[aa]SQ[aa])|3|0|2|D1,1 0 0|D1,1 0 0
(;SZ[2:1]AB[ba]PL[W];W[aa];B[];W[ba];B[aa];W[ba];B[];TR[ba])|3|3|5|E1,1 Einf,0 Sinf,0 2 2|Cinf,0 Sinf,0 0 2
(;SZ[6:1];B[];W[da];W[];TR[da])|8|512|5|E1,6 E1,6 E1,6 E1,6 E1,6 E1,6 E4,5 E3,5 B3,5 8 2|E1,6 E1,6 E1,6 E1,6 E1,6 E1,6 C4,5 C3,5 E3,5 E3,5 B3,5 8 2
(;SZ[6:1]AB[ca][ea]PL[W];W[];B[]TR[ca])|8|512|0|E1,3 E1,3 E1,3 E4,2 E4,2 E4,1 E4,1 Einf,0 Sinf,0 8 0|E1,3 E1,3 E1,3 E4,2 E4,2 E4,1 E4,1 Einf,0 Sinf,0 8 0
(;SZ[1:5];B[aa];W[ac];B[ae];W[ab]TR[ab])|8|0|1|D1,1 0 0|D1,1 0 0
(;SZ[7:1]AB[ba]AW[fa][ga];B[ea];W[fa]TR[fa]SQ[da])|3|6|2|E1,2 E1,2 E1,1 B1,1 3 2|E1,2 C1,1 Einf,0 Sinf,0 2 2
(;SZ[4:2];AB[ab]AW[ba][ca][da][bb][db];B[]TR[ab][ab])|40|0|2|D1,1 0 0|D1,1 0 0
(;SZ[1:6]AB[ad]PL[B];B[aa];W[af];B[ae];W[ab]TR[ab])|8|3|2|E1,3 E1,3 E1,3 E2,2 E2,2 E1,5 D1,5 6 2|E1,3 E1,3 E1,3 C2,2 E2,2 C1,5 D1,5 4 2
(;SZ[3:1]AB[ba][ca];TR[ba])|3|6|4096|E1,1 E0,inf S0,inf 2 2|C0,inf S0,inf 0 2
(;SZ[3];B[aa];W[bb];B[]TR[aa])|40|0|4096|D1,1 0 0|D1,1 0 0
(;SZ[4:3];AB[dc]AW[ca][cc]PL[W];W[ab]TR[ab]SQ[cc][bb][dc])|40|1|1|E1,2 D1,2 1 0|E1,2 D1,2 1 0
(;SZ[2:3]AB[ab][bc]PL[W];W[aa];W[ba]TR[aa])|3|1|5|E0,inf S0,inf 1 1|C0,inf S0,inf 0 1
(;SZ[2:1]AB[aa]PL[W];W[ba];B[];W[aa];B[ba];W[];B[];TR[ba]SQ[ba])|3|512|4096|E1,1 Einf,0 Sinf,0 2 2|Cinf,0 Sinf,0 0 2
(;SZ[4:2]AW[ca][ab]PL[B];W[cb];B[];W[aa];B[da];W[ba];B[db]TR[cb])|8|1|0|E4,1 D4,1 1 0|E4,1 D4,1 1 0
(;SZ[1:6];;B[];W[ae];B[ac]TR[ae])|40|3|1|E5,1 E5,1 E5,1 E4,1 E3,1 E3,3 E3,3 E3,3 E4,2 D4,2 9 1|E5,1 E5,1 E5,1 C4,1 E3,1 E3,3 E3,3 E3,3 E4,2 D4,2 8 1
(;SZ[5:1]AB[aa][ca]PL[W]TR[aa]SQ[ca][aa][ba][ea])|3|0|4096|D1,1 0 0|D1,1 0 0
(;SZ[5:1];B[ea];W[];B[ca]TR[ca]SQ[ea][ba])|3|0|1|D1,1 0 0|D1,1 0 0
(;SZ[4:2]AW[ab]PL[W];TR[ab]SQ[ba][ca][da][aa])|8|6|0|E5,1 E5,1 E5,1 E5,1 E5,1 E5,3 E5,3 E5,3 B5,3 8 0|E5,1 E5,1 E5,1 E5,1 E5,1 E5,3 E5,3 E5,3 B5,3 8 0
(;SZ[3];AW[aa][bb]TR[aa]SQ[bb][bc][ac][ab][cb][cc])|40|6|4096|E1,6 E1,6 E1,6 E1,6 E1,6 E1,6 E5,5 E5,5 E5,5 E5,5 E5,5 E5,8 E5,8 E5,8 E5,8 E5,7 E5,7 E5,7 E5,7 E5,7 E5,9 E5,9 E5,9 E5,8 E5,8 E5,8 E5,8 E5,8 E5,11 E5,11 E5,11 E5,11 E5,10 E5,10 E5,10 E5,10 E5,10 E5,13 E5,13 E5,13 B5,13 40 4|E1,6 E1,6 E1,6 E1,6 E1,6 E1,6 C5,5 E5,5 E5,5 E5,5 E5,5 E5,8 E5,8 E5,8 E5,8 C5,7 E5,7 E5,7 E5,7 E5,7 E5,9 E5,9 E5,9 C5,8 E5,8 E5,8 E5,8 E5,8 E5,11 E5,11 E5,11 E5,11 C5,10 E5,10 E5,10 E5,10 E5,10 E5,13 E5,13 E5,13 E5,13 E5,12 E5,12 E5,12 B5,12 40 5
(;SZ[3:2]AB[ca]PL[B]TR[ca])|3|1|0|E6,1 D6,1 1 0|E6,1 D6,1 1 0
(;SZ[1:5]AW[aa][ab]PL[W];W[ac];B[ad];W[ac];B[ae];TR[ac])|3|3|1|E5,1 E5,1 E5,1 B5,1 3 0|E5,1 E5,1 E5,1 B5,1 3 0
(;SZ[1:3]AB[ac]AW[aa]PL[B]TR[ac])|3|0|5|D1,1 0 0|D1,1 0 0
(;SZ[4:1]AB[aa][ba][da];TR[ba])|40|1|2|E1,1 D1,1 1 0|E1,1 D1,1 1 0
(;SZ[4:2]AB[db]PL[W];W[da]TR[db]SQ[cb][ca][da][ab][bb])|40|1|4096|E5,1 D5,1 1 0|E5,1 D5,1 1 0
(;SZ[1:6]AW[aa];B[af];W[ad]TR[aa][aa])|8|0|5|D1,1 0 0|D1,1 0 0
(;SZ[7:1]AW[ea];B[fa]TR[fa]SQ[ga][ba][ea][fa])|3|0|0|D1,1 0 0|D1,1 0 0
(;SZ[2]PL[B];B[ba];W[bb];B[aa];W[ab];B[];W[ba];TR[bb]SQ[ba][bb][ab])|40|6|0|E1,1 Einf,0 Sinf,0 2 0|E1,1 Einf,0 Sinf,0 2 0
(;SZ[2];AB[ba]AW[ab][bb]TR[bb])|8|1|2|E0,inf S0,inf 1 1|C0,inf S0,inf 0 1
(;SZ[1:6];B[ae];W[aa];B[ac]TR[ac])|3|3|0|E1,2 E1,2 E5,1 B5,1 3 0|E1,2 E1,2 E5,1 B5,1 3 0
(;SZ[2:3]AB[ac][bc]PL[W];W[aa];B[bb]TR[ac]SQ[ab][ba][bc])|40|0|5|D1,1 0 0|D1,1 0 0
(;SZ[4:2]AB[ab][db]AW[ba]PL[W];W[bb];B[aa];W[ca];TR[db])|3|6|1|E5,1 E5,1 E4,1 B4,1 3 1|E5,1 E5,1 C4,1 E4,1 B4,1 3 1
(;SZ[3:2];B[aa];W[]TR[aa]SQ[bb][ab][aa][ca][cb][ba])|3|512|0|E6,1 E6,1 E6,1 B6,1 3 0|E6,1 E6,1 E6,1 B6,1 3 0
(;SZ[3:2]AB[ca][ab]PL[W]TR[ab])|40|1|0|E1,5 D1,5 1 0|E1,5 D1,5 1 0
(;SZ[1:3]AB[ac]PL[B]TR[ac])|3|6|0|E3,1 E2,1 E1,1 B1,1 3 0|E3,1 E2,1 E1,1 B1,1 3 0
(;SZ[1:6]AW[aa][af]PL[W]TR[af]SQ[ac][ae])|3|3|2|E3,1 E2,1 E2,1 B2,1 3 1|E3,1 C2,1 E2,1 E1,2 B1,2 3 2
(;SZ[5:1]AW[ba][ca];B[ea];W[da];B[];W[aa]TR[da])|3|1|2|E0,inf S0,inf 1 1|C0,inf S0,inf 0 1
(;SZ[4:2];AB[cb][db]AW[da]PL[B]TR[db]SQ[ca][ba][bb])|8|512|4096|E4,1 E4,1 E4,1 E4,1 E4,3 E4,3 E4,3 E5,2 B5,2 8 1|E4,1 E4,1 E4,1 E4,1 E4,3 E4,3 E4,3 C5,2 E5,2 B5,2 8 1
(;SZ[7:1]AB[ba]AW[da]PL[W];W[];B[ga];W[ea];B[aa];W[ca];B[fa]TR[da])|40|512|4096|E5,1 E5,1 E5,1 E5,1 E5,1 E5,3 E5,3 E5,3 E6,2 E6,2 E7,1 E6,1 E6,1 Einf,0 Sinf,0 14 10|Cinf,0 Sinf,0 0 10
(;SZ[3];AB[aa][bc]PL[W];W[ac];W[cb];W[ba]TR[aa])|8|3|4096|E4,1 E4,1 E3,1 E2,1 E1,4 E1,4 E1,4 E1,4 B1,4 8 3|E4,1 E4,1 C3,1 C2,1 C1,4 E1,4 E1,4 E1,4 E3,3 D3,3 6 4
(;SZ[4:1];B[ba]TR[ba]SQ[ba][da][aa])|8|512|2|E1,2 E1,2 E2,1 E2,1 Einf,0 Sinf,0 5 2|E1,2 E1,2 C2,1 E2,1 Cinf,0 Sinf,0 3 2
(;SZ[3]AB[ba]AW[aa][ab][bb][ac]PL[B]TR[ba])|40|512|1|E5,1 E4,1 E3,1 E2,1 E1,1 E0,inf S0,inf 6 1|E5,1 C4,1 E3,1 E2,1 E1,1 E0,inf S0,inf 5 1
(;SZ[3:2]PL[B];B[bb];W[]TR[bb])|8|0|4096|D1,1 0 0|D1,1 0 0
(;SZ[3];AW[bb][cb]PL[B];B[aa];W[ab];B[cc]TR[cb]SQ[cb][bb][ac])|8|0|2|D1,1 0 0|D1,1 0 0
(;SZ[2:3];AW[bb][ac][bc]TR[bc])|40|512|5|E1,4 E1,4 E1,4 E1,4 E3,3 E2,3 E1,3 E1,4 E1,4 E2,4 E2,4 E1,6 E1,6 E1,6 E2,5 E1,5 E0,inf S0,inf 17 5|E1,4 E1,4 E1,4 E1,4 C3,3 C2,3 C1,3 E1,4 E1,4 E2,4 E2,4 C1,6 E1,6 E1,6 C2,5 E1,5 E0,inf S0,inf 12 5
(;SZ[2:1];B[];W[ba]TR[ba]SQ[ba])|3|3|4096|E1,1 Einf,0 Sinf,0 2 2|Cinf,0 Sinf,0 0 2
(;SZ[7:1];AB[ca]AW[aa][ea]PL[W]TR[aa]SQ[fa][ea][ba][ga][aa][ca])|8|3|1|E3,1 E2,1 E1,1 E0,inf S0,inf 4 1|E3,1 C2,1 E1,1 E0,inf S0,inf 3 1
(;SZ[1:2]PL[B];B[ab];W[];B[]TR[ab])|8|1|5|E0,inf S0,inf 1 1|C0,inf S0,inf 0 1
(;SZ[9:2];B[ib]TR[ib]SQ[hb][ab])|8|6|1|E1,3 E1,3 E1,3 E2,2 E2,2 E2,1 E2,1 Einf,0 Sinf,0 8 1|E1,3 E1,3 E1,3 C2,2 E2,2 E2,1 E2,1 Einf,0 Sinf,0 7 1
(;SZ[1:6]AW[af];B[]TR[af])|3|512|2|E6,1 E5,1 E4,1 B4,1 3 2|E6,1 C5,1 C4,1 E3,1 E2,1 B2,1 3 2
(;SZ[4:1]AB[aa][ca]PL[W];W[ba];B[da];B[];TR[ba]SQ[da][ba][aa][ca])|3|512|1|E4,1 E3,1 E3,1 B3,1 3 1|E4,1 C3,1 E3,1 Einf,0 Sinf,0 3 1
(;SZ[2:1]PL[B];B[aa];W[ba];B[];W[]TR[ba])|40|0|1|D1,1 0 0|D1,1 0 0
(;SZ[6:1]AB[da]PL[W];W[ca];B[];W[fa]TR[fa]SQ[da][aa][fa][ba][ea])|8|1|1|E0,inf S0,inf 1 1|C0,inf S0,inf 0 1
(;SZ[3]AB[aa][ab][bb][cc]AW[ca][bc]PL[W]TR[ab]SQ[bc][aa])|3|6|5|E1,1 Einf,0 Sinf,0 2 2|Cinf,0 Sinf,0 0 2
(;SZ[4]AB[cc][ad]AW[ab]PL[W];TR[cc]SQ[da][ac])|8|6|5|E1,3 E1,3 E1,3 E2,2 E2,2 E2,1 E2,1 Einf,0 Sinf,0 8 5|E1,3 C1,2 E1,2 C2,1 E2,1 Cinf,0 Sinf,0 3 5
(;SZ[3];AB[aa][ba]AW[ab][bb][cc]PL[B]TR[ab])|8|3|0|E1,5 E1,5 E1,5 E1,5 E1,5 E4,4 E4,4 E4,4 B4,4 8 0|E1,5 E1,5 E1,5 E1,5 E1,5 E4,4 E4,4 E4,4 B4,4 8 0
(;SZ[3]AB[ab]PL[B];TR[ab])|40|512|0|E9,1 E9,1 E9,1 E9,1 E9,1 E9,1 E9,1 E9,1 E9,1 E9,7 E9,7 E9,7 E9,7 E9,7 E9,7 E9,7 E15,6 E15,6 E15,6 E15,6 E15,6 E15,6 E15,6 E15,7 E15,7 E15,7 E15,7 E15,7 E15,7 E15,7 E21,6 E21,6 E21,6 E21,6 E21,6 E21,6 E21,6 E21,8 E21,8 E21,8 B21,8 40 0|E9,1 E9,1 E9,1 E9,1 E9,1 E9,1 E9,1 E9,1 E9,1 E9,7 E9,7 E9,7 E9,7 E9,7 E9,7 E9,7 E15,6 E15,6 E15,6 E15,6 E15,6 E15,6 E15,6 E15,7 E15,7 E15,7 E15,7 E15,7 E15,7 E15,7 E21,6 E21,6 E21,6 E21,6 E21,6 E21,6 E21,6 E21,8 E21,8 E21,8 B21,8 40 0
(;SZ[3:2]AW[ab][bb]PL[W];W[ba];B[cb];W[aa]TR[aa])|3|1|1|E0,inf S0,inf 1 1|C0,inf S0,inf 0 1
(;SZ[3:2];B[ba]TR[ba])|40|6|5|E1,6 E1,6 E1,6 E1,6 E1,6 E1,6 E5,5 E5,5 E5,5 E5,5 E5,5 E5,7 E5,7 E5,7 E5,6 E5,6 E5,6 E5,6 E5,6 E5,8 E5,8 E5,8 E5,7 E5,7 E5,7 E5,7 E5,7 E5,9 E5,9 E5,9 E5,8 E5,8 E5,8 E5,8 E5,8 E5,11 E5,11 E5,11 E5,11 E5,10 B5,10 40 5|E1,6 E1,6 E1,6 E1,6 E1,6 E1,6 C5,5 E5,5 E5,5 E5,5 E5,5 E5,7 E5,7 E5,7 C5,6 E5,6 E5,6 E5,6 E5,6 E5,8 E5,8 E5,8 C5,7 E5,7 E5,7 E5,7 E5,7 E5,9 E5,9 E5,9 C5,8 E5,8 E5,8 E5,8 E5,8 E5,11 E5,11 E5,11 E5,11 C5,10 E5,10 E5,10 E5,10 E5,10 E5,12 B5,12 40 5
(;SZ[3:2]AB[aa][ab]AW[cb]TR[cb])|40|6|1|E1,4 E1,4 E1,4 E1,4 E3,3 E2,3 E1,3 E1,4 E1,4 E2,4 E2,4 E1,8 E1,8 E1,8 E1,8 E1,8 E2,7 E2,7 E1,11 E1,11 E1,11 E1,11 E1,11 E3,10 E3,10 E2,10 E1,11 E1,11 E3,10 E3,10 E2,10 E1,13 E1,13 E1,13 E1,13 E4,12 D4,12 36 1|E1,4 E1,4 E1,4 E1,4 C3,3 E2,3 E1,3 E1,4 E1,4 E2,4 E2,4 E1,8 E1,8 E1,8 E1,8 E1,8 E2,7 E2,7 E1,11 E1,11 E1,11 E1,11 E1,11 E3,10 E3,10 E2,10 E1,11 E1,11 E3,10 E3,10 E2,10 E1,13 E1,13 E1,13 E1,13 E4,12 D4,12 35 1
(;SZ[3]AB[ab][ac][cc]AW[aa][ca]PL[W]TR[ca]SQ[bb])|8|6|2|E2,1 E2,1 Einf,0 Sinf,0 3 2|E2,1 Cinf,0 Sinf,0 1 2
(;SZ[6:1];B[ea]TR[ea])|8|512|1|E1,5 E1,5 E1,5 E1,5 E1,5 E4,4 E4,4 E4,4 B4,4 8 1|E1,5 E1,5 E1,5 E1,5 E1,5 C4,4 E4,4 E4,4 E3,4 B3,4 8 1
(;SZ[3:1];AW[aa]PL[B];B[ca]TR[ca]SQ[aa][ba][ca])|3|1|4096|E0,inf S0,inf 1 1|C0,inf S0,inf 0 1
(;SZ[4:2];PL[B];B[aa];W[bb]TR[aa])|40|6|2|E7,1 E7,1 E7,1 E7,1 E6,1 E6,1 E6,1 E6,6 E6,6 E6,6 E6,6 E6,6 E6,6 E9,5 E8,5 E7,5 E6,5 E5,6 E5,6 E5,6 E5,6 E5,6 E5,6 E8,5 E7,5 E6,5 E5,5 E4,6 E4,6 E4,6 E4,6 E4,6 E4,6 E7,5 E6,5 E5,5 E4,5 E3,6 E3,6 E3,6 B3,6 40 2|E7,1 E7,1 E7,1 E7,1 C6,1 E6,1 E6,1 E6,6 E6,6 E6,6 E6,6 E6,6 E6,6 C9,5 E8,5 E7,5 E6,5 E5,6 E5,6 E5,6 E5,6 E5,6 E5,6 E8,5 E7,5 E6,5 E5,5 E4,6 E4,6 E4,6 E4,6 E4,6 E4,6 E7,5 E6,5 E5,5 E4,5 E3,6 E3,6 E3,6 E3,6 E3,6 B3,6 40 2
(;SZ[4:3];B[];W[cc];TR[cc]SQ[cc][ca][bb][bc][dc])|40|3|2|E1,5 E1,5 E1,5 E1,5 E1,5 E4,4 E4,4 E4,4 E4,4 E4,6 D4,6 10 1|E1,5 E1,5 E1,5 E1,5 E1,5 C4,4 E4,4 E4,4 E4,4 E4,6 D4,6 9 1
(;SZ[5:5];B[];W[ca];B[ce];W[ed];B[ee];W[];TR[ed]SQ[be][eb])|8|6|4096|E1,3 E1,3 E1,3 E2,2 E2,2 E2,1 E2,1 Einf,0 Sinf,0 8 8|Cinf,0 Sinf,0 0 8
(;SZ[3:2]PL[B];B[aa];W[cb];B[bb]TR[aa]SQ[ca])|3|512|5|E1,2 E1,2 E1,1 B1,1 3 2|E1,2 C1,1 Einf,0 Sinf,0 2 4
(;SZ[5:1]PL[W];W[ba];B[ea];W[ca]TR[ba])|40|3|4096|E1,2 E1,2 E4,1 E3,1 E3,1 D3,1 5 2|E1,2 E1,2 C4,1 C3,1 E3,1 D3,1 3 2
(;SZ[2:3];B[ba];W[ab]TR[ba])|40|3|5|E5,1 E4,1 E4,1 E4,1 E4,1 E4,4 E4,4 E4,4 E4,4 E5,3 D5,3 10 2|E5,1 C4,1 E4,1 E4,1 E4,1 E4,4 E4,4 E4,4 E4,4 C5,3 D5,3 8 2
(;SZ[2:3];AB[ac][bc]AW[ba]PL[W];W[aa];B[ab];W[bb];B[bc]TR[bc])|40|1|5|E0,inf S0,inf 1 1|C0,inf S0,inf 0 1
(;SZ[2:3]AB[aa][ba][ab][bb]PL[W];W[ac];B[bc];W[ac]TR[ac])|40|3|0|E1,6 E1,6 E1,6 E1,6 E1,6 E1,6 E5,5 E5,5 E5,5 E5,5 E5,5 E5,7 D5,7 12 0|E1,6 E1,6 E1,6 E1,6 E1,6 E1,6 E5,5 E5,5 E5,5 E5,5 E5,5 E5,7 D5,7 12 0
(;SZ[3:2];AB[cb]PL[W];W[];B[aa];W[ca]TR[cb]SQ[bb][ba][ca][ab][cb])|8|3|5|E4,1 E4,1 E3,1 E3,1 E2,2 E2,2 E5,1 D5,1 7 3|E4,1 E4,1 C3,1 E3,1 C2,2 E2,2 C5,1 D5,1 4 3
(;SZ[3:3]AB[aa]AW[ca][ab][bc][cc]PL[W]TR[aa])|8|1|4096|E0,inf S0,inf 1 1|C0,inf S0,inf 0 1
(;SZ[3:2]AB[ca]PL[B]TR[ca])|19|512|4096|E6,1 E6,1 E6,1 E6,1 E6,1 E6,1 E6,4 E6,4 E6,4 E6,4 E9,3 E9,3 E9,3 E9,3 E9,4 E9,4 E9,3 E9,3 E9,2 C12,1 B12,1 19 6|E6,1 E6,1 E6,1 E6,1 E6,1 E6,1 E6,4 E6,4 C6,3 C6,2 C9,1 E9,1 E9,1 E9,1 E9,2 E9,2 C12,1 E12,1 Einf,0 Sinf,0 15 13
";
