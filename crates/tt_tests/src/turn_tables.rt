//! Tables of turns, worked out by a program written from the rules alone: a line each, with the problem, the numbers of
//! the turns that are made, the boards of the history then, who has won, who moves and how many passes stand in a row, and each turn's cause.
//! A bar ends each part but the last one, and a stroke each board but the last one.

/// Boards that would be repeated in eight lines, those of the record in eight more; captured targets in eight, held ones in six; passes in a
/// row in eight; regions in eight; moves of a record in eight; and whole boards in eight.
pub(crate) const TURNS: &str = "\
(;SZ[3]AW[aa][bb][bc];B[ac];W[cb];B[ba]TR[bc])|9,3,0|W...W..W./W...W.BW./W...WWBW./WB..WWBW./.B.BWWBW./WB..WW.W.|-A0|SS--SSRSR-
(;SZ[3];B[cb];W[];B[bb];W[ac];B[ca];W[cc]TR[bb]SQ[ba][cc][bb][cb][ca][bc])|9,1,7|........./.....B.../....BB.../....BBW../..B.BBW../..B.BBW.W/.WB.BBW.W/.WB.BBWB.|-A0|XSSXSSSSR-
(;SZ[3:2];AW[aa][ca][bb][cb]PL[W]TR[ca]SQ[aa][ab])|6|W.W.WW|-A1|SXSRSS-
(;SZ[4:3]AB[da][bb][cb][db]AW[ba][ca][ab][ac][bc][cc];B[aa];W[ca];B[ba];W[dc]TR[da]SQ[ca][bb][dc][bc][ba][cb])|12|.WWBWBBBWWW./B..BWBBBWWW./B.WBWBBBWWW./BB.BWBBBWWW./BB.B.BBB....|-A1|SSRSXSSSX-X--
(;SZ[5:1];B[ba];W[ea];B[aa];W[ca]TR[ca]SQ[ea][aa][da][ca])|5,0,3,5,4,5|...../.B.../.B..W/BB..W/..W.W/W.W.W/W.WB./W.W..|-A1|SXSR--
(;SZ[1:3]PL[W];W[];B[aa];W[ab];B[];TR[ab]SQ[ac][ab])|3|.../B../.W.|-A1|XSR-
(;SZ[4:1];B[ca];W[aa];B[ba];W[];TR[ca]SQ[aa][ba][ca])|4|..../..B./W.B./.BB.|-A1|RSSX-
(;SZ[4:2];AB[aa][db]AW[ca][ab][bb][cb]PL[B];B[da];W[ba];B[da]TR[bb]SQ[aa][db][ba])|7|B.W.WWWB/B.W.WWW./.WW.WWW./.WWBWWW./.WW.WWWW|-A0|RSSXSSSS-
(;SZ[5:3];AB[ba][da][ea][db][bc]AW[aa][bb][eb][dc]PL[W];B[ac];W[ca];TR[aa]SQ[dc][ba][bb])||WB.BB.W.BW.B.W./WB.BB.W.BWBB.W./W.WBB.W.BWBB.W.|-A0|SRSSSXSXSSSSXSX-
(;SZ[4:1]AW[ba]TR[ba]SQ[ca][ba][aa])||.W..|-A0|RS-X-
(;SZ[5:1]AW[ea];B[da];B[ca];W[ba];B[];W[ea];B[da]TR[da]SQ[ea][ca][ba])||....W/...B./..BB./.WBB./.W..W/.W.B.|-A0|XS-SR-
(;SZ[4:4];AB[db][ac][bc][cc][bd]AW[aa][ba][bb][cb];B[ca];W[dc];W[cd];B[ab];W[bb];B[aa]TR[cc]SQ[dd][dc][da])||WW...WWBBBB..B../WWB..WWBBBB..B../WWB..WWBBBBW.B../WWB..WWBBBBW.BW./..B.B..BBBBW.BW./..B.BW.BBBBW.BW./B.B.BW.BBBBW.BW.|-A0|SXSRSSXSSSSSXSS--
(;SZ[4:3]AB[ba][ab][cb][ac]AW[ca][da][db][bc]PL[B];B[];W[cc];B[aa];W[bb]TR[cc]SQ[db][cc][ab][dc][da][cb])||.BWWB.BWBW../.BWWB.BWBWW./BBWWB.BWBWW./..WW.W.W.WW.|-A0|XXSS-SRSXSSR-
(;SZ[2:2]AB[aa]AW[ba]PL[W];W[ab]TR[ab]SQ[aa])||BW../.WW.|-A0|RSSX-
(;SZ[4:3]AB[aa][cb][cc][dc]AW[ab][db]PL[B];B[];W[bc];B[da];W[ba];B[bb];W[]TR[ba]SQ[db][cc][aa][da][bc][dc])||B...W.BW..BB/B...W.BW.WBB/B..BW.B..WBB/.W.BW.B..WBB/.W.BWBB..WBB|-A0|RSXSSSS-XSSS-
(;SZ[6:1]AB[ea];B[ba];W[ca];B[]TR[ca]SQ[ba][fa][ea][aa])||....B./.B..B./.BW.B.|-D0|-SSXSR-
(;SZ[9:2]AB[ia]AW[bb][ib];B[cb]TR[ib]SQ[eb][hb][bb][fa])|5,16|........B.W......W/........B.WB.....W/.....W..B.WB.....W/.....W..B.WB....B.|AD0|OOOOOOOOOOOOOOOOOOO
(;SZ[2:2]AB[ab]AW[ba]PL[B];B[aa];W[bb];W[ab];B[aa];W[ab];B[ba]TR[aa]SQ[aa][bb][ab][ba])|4,3,2|.WB./BWB./.W.W/.WWW/B.../B.W./BBW./BB.B/..W.|AD0|OOOOO
(;SZ[2]AB[aa]AW[ab][bb]PL[W]TR[ab]SQ[aa][ba][bb])|4,1|B.WW/BB..|AD0|OOOOO
(;SZ[1:6];W[ae];B[aa];W[af];B[ac]TR[ae])|1,6,0,3|....../....W./B...W./B...WW/B.B.WW/.WB.WW/..B.WW/..BB..|AD0|OOOOOOO
(;SZ[1:3]AB[aa][ac]PL[B];B[];W[]TR[ac]SQ[ab][aa][ac])|3,1|B.B/.W.|AD0|OOOO
(;SZ[3:1]AB[ba]PL[W];W[]TR[ba])|0,2|.B./BB./..W|AD0|OOOO
(;SZ[3:2]AB[cb]AW[aa][ba][ca]PL[W];W[bb];B[]TR[aa])|3,5|WWW..B/WWW.W./WWWWW./.....B|AD0|OOOOOOO
(;SZ[5:1]AB[aa];B[ea];TR[ea]SQ[ca][da][aa])|2,3|B..../B...B/B.W.B/B.W..|AA0|OOOOOO
(;SZ[3:2];PL[B];B[bb]TR[bb][bb]SQ[bb][ca][ba][ab])|3,2,1,6,6|....../....B./...WB./..BWB./.WBWB.|DD2|OOOOOOO
(;SZ[4:3]AB[db]AW[aa][bb][ac][dc]PL[W];W[bc];B[ba];W[]TR[aa]SQ[ba][cb][ac])|6,12,12|W....W.BW..W/W....W.BWW.W/WB...W.BWW.W/WB...WBBWW.W|DD2|OOOOOOOOOOOOO
(;SZ[3:2]AW[cb]TR[cb]SQ[ca][cb][ab][ba][aa])|2,3,6,0,6,6|.....W/..B..W/..BW.W/W.BW.W|DA2|OOOOOOO
(;SZ[7:3];AB[ba][ab][db][fb]AW[ea][bb][ac]PL[W];TR[db]SQ[bb][ec][dc][db][ba][fa])|5,18,17,21,21|.B..W..BW.B.B.W....../.B..WW.BW.B.B.W....../.B..WW.BW.B.B.W...B../.B..WW.BW.B.B.W..WB..|DD2|OOOOOOOOOOOOOOOOOOOOOO
(;SZ[6:1]AB[ba][ca][da][ea][fa]PL[B];B[aa];W[aa];B[da]TR[aa]SQ[ea])|4,6,6|.BBBBB/....../W...../W..B../W..BW.|DA2|OOOOOOO
(;SZ[3];B[cc];W[cb];B[aa];W[ba];B[bc];W[ca];TR[cb]SQ[ab])|3,9,9|........./........B/.....W..B/B....W..B/BW...W..B/BW...W.BB/BWW..W.BB/BWWB.W.BB|DD2|OOOOOOOOOO
(;SZ[5:1];AB[ca][ea]AW[ba];B[da]TR[ba][ba]SQ[ba][aa][ea][ca])|0,4,5|.WB.B/.W.../WW.../WW..B|-A1|SS-XS-
(;SZ[5:3];B[ca];W[cb];B[db];W[da]TR[db]SQ[ca][eb][ec])|15,14,15|.............../..B............/..B....W......./..B....WB....../..BW...WB....../..BW...WB.....W|-A1|XXSSXXXSS-XXXXS-
(;SZ[2];PL[B];B[aa]TR[aa]SQ[bb][ba][aa])|4,3,4|..../B.../B..B|-D1|S-XS-
(;SZ[4:3]AB[aa][ca]AW[db][ac]PL[W];W[ab];B[dc];TR[db]SQ[ac][db][da][cc][ba])|12,3,10,12,1,12|B.B....WW.../B.B.W..WW.../B.B.W..WW..B/B.BBW..WW..B/B.BBW..WW.W./.WBBW..WW.W.|-D1|XSSSSXXSSXSX-
(;SZ[6:1];B[ea];TR[ea][ea]SQ[ca][aa][da][ba][ea])|2,0,1,3,0,6|....../....B./..W.B./B.W.B./.WW.B./.WWBB./...BB.|-A1|---SSX-
(;SZ[4];B[];W[dc];B[cb]TR[dc]SQ[db][aa][bc][bd][ca])|9,0,2,16,13,16|................/...........W..../......B....W..../......B..W.W..../B.....B..W.W..../B.W...B..W.W..../B.W...B..W.W.W..|-D1|SXSXXXS-XSXSXSXX-
(;SZ[4:2]AB[ba][bb][db]AW[da]PL[B];B[aa];W[cb];B[ca];W[ab];B[];W[]TR[ab]SQ[ab][ba][aa][bb])|0,1,8|.B.W.B.B/BB.W.B.B/BB.W.BW./BBBW.BW./...WW.W./B..WW.W./.W.WW.W.|-D1|-SXSS-SX-
(;SZ[4:3]AB[ab][db][ac]AW[aa][ca][bb][cb][cc]PL[B];W[dc];B[da];W[ba];B[bc]TR[cb]SQ[da][bc][ab])|12,9,12|W.W.BWWBB.W./W.W.BWWBB.WW/W.W.BWW.B.WW/WWW.BWW.B.WW/WWW..WW...WW/WWW..WW..BWW|-A1|SSS--SSXXSSS-
(;SZ[4:3];AB[ca][ab][db][bc][dc]AW[bb];B[ba]TR[bc]SQ[cc][ab][ba][cb][da][dc])|12,10,6|..B.BW.B.B.B/.BB.BW.B.B.B/.BB.BW.B.BBB/.BB.B..B.BBB|-D0|XSS-SX-SXSSS-
(;SZ[4:2];B[aa]TR[aa]SQ[ca][bb][da][cb])|3,5,6|......../B......./B..W..../B..W.B../B..W.BW.|-D0|SX-SXSSX-
(;SZ[9:2];AB[ca][ea][hb]AW[aa][fa][ia][gb]PL[B];B[eb];W[ga];B[db];W[ba];TR[fa]SQ[fa][ab][bb][db])|9,18,10|W.B.BW..W......WB./W.B.BW..W....B.WB./W.B.BWW.W....B.WB./W.B.BWW.W...BB.WB./WWB.BWW.W...BB.WB./WWB.BWW.WB..BB.WB./..B.BWW.WBB.BB.WB.|-D0|XXSXSSSXSSSXSSXSSX-
(;SZ[4:3];AB[bc]AW[cb];B[];W[cc];B[ca];W[ab];B[db];W[ba]TR[bc]SQ[dc][cb][cc][ca][bb][aa])|5,11,0,10,12,11|......W..B../......W..BW./..B...W..BW./..B.W.W..BW./..B.W.WB.BW./.WB.W.WB.BW./.WB.WBWB.BW./.WB.WB.B.B../B.B.WB.B.B../B.B.WB.B.BW./B.B.WB.B.BWW|-D0|SXSXSS-SXSSS-
(;SZ[2]AB[aa]PL[B];W[];TR[aa]SQ[ab][ba])|1,4,2|B.../BB../BBB.|-A0|SSSX-
(;SZ[9:2];AB[fa]PL[B];B[bb];W[da]TR[da]SQ[fb][cb][hb][eb][bb][ia])|11,8,14,13,18,16|.....B............/.....B....B......./...W.B....B......./...W.B....BB....../...W.B..W.BB....../...W.B..W.BB..B.../...W.B..W.BB.WB.../...W.B..W.BB.WB.W.|-A0|XXXSXSXXSXSSXSSXSX-
(;SZ[4:3];AB[aa]AW[ba][db][ac]PL[B];B[bc]TR[ac]SQ[da][bb][bc][cc])|10,3,12|BW.....WW.../BW.....WWB../BW.....WWBW./BW.B...WWBW.|-A1|SSXSX-XSSSSX-
(;SZ[4:3];AB[bc]PL[W]TR[bc]SQ[bb][ca][cc][aa][dc])|0,12,11|.........B../W........B../W........B.W|-D0|SX-XX-XXXS-S-
(;SZ[4:3]AB[aa][cb][ac]AW[ba][bb][db][bc][dc]PL[W];W[];B[ab];W[da];B[aa];W[cc];B[]TR[ba]SQ[aa][ac])||BW...WBWBW.W/.W...WBW.W.W/.W.W.WBW.W.W/BW.W.WBW.W.W/BW.W.WBW.WWW|-D0|SSXSXSSS-SSS-
(;SZ[2:3];AB[bc]AW[ba][ab][bb]PL[B];B[ac];W[bc];W[ac];B[aa]TR[aa]SQ[ac][aa])||.WWW.B/.WWW../.WWW.W/.WWWWW/B.....|-A0|SXXX-X-
(;SZ[2]AW[ab]PL[B];B[bb];W[aa];B[ba];W[aa];B[ab];W[aa]TR[aa]SQ[ba])||..W./..WB/W.WB/.B.B/WB.B/.BBB/W...|-A0|S-XX-
(;SZ[9:2]AB[ga][eb]AW[da][ea][cb]PL[W];W[aa];B[fa];B[bb];W[]TR[aa]SQ[fb][ba][fa][ia])||...WW.B....W.B..../W..WW.B....W.B..../W..WWBB....W.B..../W..WWBB...BW.B....|-A0|S-XSSSSX-XSSXS-XXX-
(;SZ[7:1];AB[ea]AW[ba][fa]PL[B];B[ca];W[aa];TR[ca]SQ[fa][ea][ga][da][ca][aa])||.W..BW./.WB.BW./..B.BW.|-D0|-XS-SS--
(;SZ[2:2];B[aa];W[ab];B[bb];W[]TR[aa]SQ[bb])||..../B.../B.W./B..B|-D0|SXXS-
(;SZ[5:5];AB[eb]AW[cb];B[dd];W[ea];B[ee]TR[ee]SQ[ea][de][ad][ce][ec][ba])||.......W.B.............../.......W.B........B....../....W..W.B........B....../....W..W.B........B.....B|-A0|X-XXSXXSXSXXXX--XXSXXX--S-
(;SZ[5:1]AB[ba]AW[da]PL[W];W[ca];B[aa];W[aa]TR[ca]SQ[ca][da])||.B.W./.BWW./..WW./W.WW.|-A0|SXSSX-
(;SZ[1:5];AB[ae]AW[ab]PL[W];W[ac];B[ad];W[aa];B[ad]TR[ad])|2|.W..B/.WW.B/.WW../WWW../...B./..WB.|-D0|--SS--
(;SZ[5:1]AB[ba][ca]PL[B];B[aa];W[];B[ea];W[da];B[ca];B[ea];TR[ca])|5|.BB../BBB../BBB.B/...W./..BW./..B.B|-D1|--S-S-
(;SZ[2:3];AB[aa];B[ba];W[bb];B[bc];B[ac];W[ab];B[ac]TR[bb])|1,5,0|B...../BB..../BB.W../BB.W.B/BB.WBB/..WW../..WWB./.WWWB./.WWW../WWWW..|-A0|SSSS---
(;SZ[2]AW[ab]PL[W];W[ba];B[]TR[ba])|4|..W./.WW.|-A1|RSSR-
(;SZ[1:5];B[ac];W[ad]TR[ac])|5|...../..B../..BW.|-A1|--SSR-
(;SZ[2:3];B[bb];W[ab];B[ac];W[aa]TR[ac])|1,0,2|....../...B../..WB../..WBB./W.WBB./.B.BB./WB.BB./.BBBB.|-A0|RSSSSR-
(;SZ[2:3];B[aa];W[ac];B[]TR[ac])|2,1,3|....../B...../B...W./B.W.W./BBW.W./..WWW.|-A0|--SSSR-
(;SZ[3:2]AB[ca][ab]AW[bb]TR[ca])|1,6,5|..BBW./.BBBW./.BBB.B|-A0|RSSSRS-
";
