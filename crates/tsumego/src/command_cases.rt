//! Tables of rows, a line each, which a tilde ends: words, the status, the input, and the answer behind the last bar. In an
//! input `<3*ab>` stands for `ababab`. The answers were found by hand from the rules, or by a program written from them alone.

/// Rows as they stand. Status 2 says that `command` refuses the words.
pub(crate) const COMMAND_CASES: &str = "\
score|0|(;GM[1]FF[4]SZ[2];B[aa];W[];B[])|1 black 4 white 0 finished\n~\
score|0|(;GM[1]SZ[19];B[ss];W[tt];B[])|1 black 361 white 0 finished\n~\
score|0|(;SZ[1])|1 black 0 white 0 unfinished\n~\
score|1|(;SZ[1];B[aa])|1 refused 17\n~\
score|1|(;SZ[2:1];B[aa];W[ba];B[];W[aa])|1 refused 17\n~\
score|0|(;SZ[4:1]AB[aa]AW[ca];B[ba])|1 black 0 white 4 unfinished\n~\
score|0|(;SZ[3:1];B[aa];B[ba])|1 black 3 white 0 unfinished\n~\
score|1|(;SZ[2];B[];W[];B[aa])|1 refused 18\n~\
score|1|(;GM[1]|1 refused 1\n~\
score|1||1 refused 1\n~\
score|1|x(;SZ[2:1]AB[ba:aa])|1 refused 15\n~\
score|1|(;SZ[1])(;SZ[1];B[aa])(;SZ[0])|1 black 0 white 0 unfinished\n2 refused 17\n3 refused 11\n~\
score|1|(;SZ[2]AB[aa]AW[aa])(;SZ[2]AB[aa];B[bb]AW[ab])(;GM[3])(;SZ[2];B[ca])(;SZ[2]AB[aa];B[aa])|1 refused 13\n2 refused 14\n3 refused 10\n4 refused 12\n5 refused 16\n~\
score|0|(;SZ[3:1](;B[aa])(;B[ba]))|1 black 3 white 0 unfinished\n~\
score|0|(;C[a\\]b]GaMe[1]SiZe[1]X2[])|1 black 0 white 0 unfinished\n~\
score|0|(;SZ[3:1]AB[aa];W[ca]PL[W])|1 black 1 white 1 unfinished\n~\
score|1|<1048577* >|1 refused 2\n~\
score|1|<1048576* >|1 refused 1\n~\
score|0|(;SZ[3]AW[ba][ab]AB[ca][bb][ac];B[aa])|1 black 9 white 0 unfinished\n~\
score|1|(;SZ[2];B[];B[aa])|1 refused 18\n~\
score|1|(;SZ[1])((;SZ[1])|1 black 0 white 0 unfinished\n2 refused 1\n~\
score|0|(;SZ[1]) and no more|1 black 0 white 0 unfinished\n~\
score|0|<349525*(;><349525*)>|1 black 0 white 0 unfinished\n~\
score|1|<349525*(;><349524*)>|1 refused 1\n~\
score|1|(;C[\\]|1 refused 1\n~\
score|1|(;C[]])|1 refused 1\n~\
score|1|(;B[aa] [bb])|1 refused 14\n~\
score|1|(;SZ[20])(;SZ[2:20])(;SZ[+02])|1 refused 11\n2 refused 11\n3 black 0 white 0 unfinished\n~\
score|0|(;SZ[19:1];B[sa])|1 black 19 white 0 unfinished\n~\
score|0|(;SZ[1]<1000*;PL[B];B[];W[]>)|1 black 0 white 0 finished\n~\
score|1|(;SZ[1]<1000*;PL[B];B[];W[]>;PL[B];B[])|1 refused 19\n~\
score|1|(;SZ[1]<1000*;PL[B];B[];W[]>;B[])|1 refused 18\n~\
check|1|(;SZ[4:1]AW[ba][da]PL[B]TR[ba])lives ?--!--.;|invalid\n~\
check|0|(;SZ[4:1]AW[ba];B[ca];W[da]TR[ba])lives ?--!--.;|valid\n~\
check|1|(;SZ[4:1]AW[ba];B[ca];W[da]TR[ba])lives ?--!--.|refused 30\n~\
check|1|(;SZ[4:1]AW[ba][da]PL[B]TR[ba])killed !ca?aa.;|invalid\n~\
check|0|(;SZ[4:1]AW[ba][da]PL[B]TR[ba])killed !ca?aa.da.--!aa.;|valid\n~\
check|1|(;SZ[4:1]AW[ba][da]PL[B]TR[ba])killed !ca?--!aa.aa.;|refused 30\n~\
check|1|(;SZ[4:1]AW[ba][da]PL[B]TR[ba])killed <513*!-->.|refused 31\n~\
check|0|(;SZ[2:1]AW[ba]PL[W]TR[ba])killed ?aa.--!aa.;|valid\n~\
check|1|(;SZ[2:1]AW[ba]PL[W]TR[ba])killed ?aa.;|invalid\n~\
check|1|(;SZ[4:1]AW[ba][da]PL[B]TR[ba])lives .|invalid\n~\
check|1|(;SZ[4:1]AW[ba][da]PL[B]TR[ba])killed ?;|invalid\n~\
check|1|(;SZ[4:1]AW[ba][da]PL[B]TR[ba])killed !cc.|refused 30\n~\
check|1|(;SZ[4:1]AW[ba][da]PL[B]TR[ba])|refused 30\n~\
check|1|(;SZ[2:1]TR[aa])xyz|refused 22\n~\
check|1||refused 1\n~\
check|1|(;SZ[4:1]AW[ba][da]PL[B]TR[ba])killed <513*!-->|refused 31\n~\
check|1|(;SZ[4:1]AW[ba][da]PL[B]TR[ba])killed <512*!-->|refused 30\n~\
check|1|(;SZ[4:1]AW[ba][da]PL[B]TR[ba])killed <512*!-->.|invalid\n~\
check|1|(;SZ[4:1]AW[ba][da]PL[B]TR[ba])killed <512*?-->.<512*;>|invalid\n~\
check|1|(;SZ[4:1]AW[ba][da]PL[B]TR[ba])killed <513*?-->.<513*;>|refused 31\n~\
check|0|x (;SZ[4:1]AW[ba];B[ca];W[da]TR[ba])\r\n lives ?--!--.;\t |valid\n~\
check|1|(;SZ[4:1]AW[ba];B[ca];W[da]TR[ba])(;SZ[4:1]AW[ba];B[ca];W[da]TR[ba])|refused 30\n~\
solve --total 2 --workers 1|0|(;SZ[4:1]AW[ba][da]PL[B]TR[ba])|1 killed ca\n~\
solve --budget 1 --total 1 --workers 1|0|(;SZ[4:1]AW[ba][da]PL[B]TR[ba])|1 unsettled budget\n~\
solve --workers 64 --cert --depth 007 --budget=+5 --total=362000000|0|(;SZ[4:1]AW[ba][da]PL[B]TR[ba])|1 killed ca\nkilled !ca?aa.--!aa.;\n~\
solve --cert --parts|0|(;SZ[5:1]AB[aa];W[da]TR[da])|1 lives\nlives ?ba!--?ca!ba=?--!--.;--.;ca!ba*0--!--.;\n~\
solve --parts|2|(;SZ[4:1]AW[ba][da]PL[B]TR[ba])|~\
solve --cert --parts --turns|2|(;SZ[4:1]AW[ba][da]PL[B]TR[ba])|~\
check --parts|0|(;SZ[5:1]AB[aa];W[da]TR[da])lives ?ba!--?ca!ba=?--!--.;--.;ca!ba*0--!--.;|valid\n~\
solve --workers 0|2|(;SZ[4:1]AW[ba][da]PL[B]TR[ba])|~\
solve --workers 65|2|(;SZ[4:1]AW[ba][da]PL[B]TR[ba])|~\
solve --total 0|2|(;SZ[4:1]AW[ba][da]PL[B]TR[ba])|~\
solve --total 362000001|2|(;SZ[4:1]AW[ba][da]PL[B]TR[ba])|~\
solve --budget 0|2|(;SZ[4:1]AW[ba][da]PL[B]TR[ba])|~\
solve --budget 1000001|2|(;SZ[4:1]AW[ba][da]PL[B]TR[ba])|~\
solve --depth 0|2|(;SZ[4:1]AW[ba][da]PL[B]TR[ba])|~\
solve --depth 513|2|(;SZ[4:1]AW[ba][da]PL[B]TR[ba])|~\
solve --cert yes|2|(;SZ[4:1]AW[ba][da]PL[B]TR[ba])|~\
score --budget 1|2|(;SZ[4:1]AW[ba][da]PL[B]TR[ba])|~\
scor|2|(;SZ[4:1]AW[ba][da]PL[B]TR[ba])|~\
--help|2|(;SZ[4:1]AW[ba][da]PL[B]TR[ba])|~\
|2|(;SZ[4:1]AW[ba][da]PL[B]TR[ba])|~\
";

/// Rows that hold with any number of workers too.
pub(crate) const SOLVE_CASES: &str = "\
solve|0|(;SZ[2:1]AW[ba]PL[B]TR[ba])|1 killed aa\n~\
solve|0|(;SZ[2:1]AW[ba]PL[W]TR[ba])|1 killed\n~\
solve|0|(;SZ[3:1]AW[ba]PL[W]TR[ba])|1 lives pass\n~\
solve|0|(;SZ[4:1]AW[ba]PL[B]TR[ba])|1 lives\n~\
solve|0|(;SZ[4:1]AW[ba]PL[B]TR[ba]SQ[aa][ca])|1 killed ca\n~\
solve|0|(;SZ[4:1]AW[ba]PL[B]TR[ba]SQ[aa:da])|1 lives\n~\
solve --cert|0|(;SZ[4:1]AW[ba][da]PL[B]TR[ba])|1 killed ca\nkilled !ca?aa.--!aa.;\n~\
solve --cert|0|(;SZ[4:1]AW[ba];B[ca];W[da]TR[ba])|1 lives\nlives ?--!--.;\n~\
solve --budget 1|0|(;SZ[4:1]AW[ba]PL[B]TR[ba])|1 unsettled budget\n~\
solve --depth 1|0|(;SZ[4:1]AW[ba]PL[B]TR[ba])|1 unsettled depth\n~\
solve|1|(;SZ[2:1]AW[ba])(;SZ[2:1]TR[aa])|1 refused 20\n2 refused 22\n~\
solve --budget 1|0|(;SZ[4:1]AB[ba]AW[ca]PL[B]TR[ca])|1 killed da\n~\
solve --cert|0|(;SZ[4:1]AW[da]PL[W];W[ba]TR[ba])|1 killed ca\nkilled !ca?aa.--!aa.;\n~\
solve --cert|0|(;SZ[4:1]AW[ba][da]PL[B]TR[ba][da])|1 killed ca\nkilled !ca.\n~\
solve --cert|0|(;SZ[4:1]AW[ba][da]PL[W]TR[ba][da])|1 killed\nkilled ?aa!ca.ca!aa.--!ca.;\n~\
solve|1|(;SZ[4:1]AB[aa]AW[ca]TR[aa][ca])|1 refused 23\n~\
solve|1|(;SZ[4:1]AW[ca]TR[ca][aa])|1 refused 22\n~\
solve|1|(;SZ[4:1]AB[aa]AW[ca]TR[aa][ca])(;SZ[2:1]AW[ba]PL[B]TR[ba])|1 refused 23\n2 killed aa\n~\
solve --total 1|0|(;SZ[4:1]AW[ba][da]PL[B]TR[ba])|1 unsettled total\n~\
solve --total 3|0|(;SZ[4:1]AW[ba][da]PL[B]TR[ba])|1 killed ca\n~\
solve|0|(;SZ[5:1]AW[aa];B[ca]TR[ca])|1 killed da\n~\
solve --cert|0|(;SZ[5:1]AW[aa];B[ca]TR[ca])|1 killed da\nkilled !da?ba!aa.ea!ba?aa!ba?da.--!da.;ba!da?aa.--!aa.;da!ba.--!ba?aa!da?ba.--!ba.;da.--!da.;;--!ba.;\n~\
solve|0|(;SZ[7:1];B[ga];W[ea];B[ba]TR[ea])|1 killed\n~\
";

/// Rows with a text behind the input: each proper beginning of it is answered so.
pub(crate) const PREFIX_CASES: &str = "\
score|1||(;SZ[3:1](;B[aa])(;B[ba]))|1 refused 1\n~\
score|1||(;C[a\\]b]GaMe[1]SiZe[1]X2[])|1 refused 1\n~\
check|1|(;SZ[4:1]AW[ba][da]PL[B]TR[ba])|killed !ca?aa.--!aa.;|refused 30\n~\
";
