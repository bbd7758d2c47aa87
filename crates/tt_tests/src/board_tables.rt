//! Tables of boards and moves, as an independent program worked them out from the rules: a line each, which begins with how many columns and how many
//! rows the board has. A bar ends each part but the last one. Boards are drawn row by row.

/// The turns of a game in letters, column before row, Black's first and `--` for a pass; the board that they lead to, and both scores.
pub(crate) const GAMES: &str = "\
4|1|ba da aa ca aa ba aa da ca ba da da -- aa ca aa ba -- da aa da ba ca aa -- ba -- ca da ba -- ca --|.WW.|0|4
4|1|ca aa ba -- da aa da ca ba da da -- aa ca aa da ba da ca da aa ba ca -- aa -- da ba da aa ca aa -- ba -- da --|WW.W|0|4
4|1|da aa ba ca aa aa -- da ba da aa ca aa ba aa da ca ba da da -- aa ca aa ba -- aa da -- aa --|W..W|0|4
4|1|ba da aa ca aa ba aa da ca ba da ca -- aa da ba -- aa ca aa ba aa da ca ba -- da -- aa ca aa --|B.W.|1|2
4|1|ca aa ba -- da aa da ca ba da da -- aa ca aa ba -- da aa da ca ba da da -- aa --|WW.W|0|4
4|1|ca ba aa -- da ba da aa ca aa ba aa ca -- ba -- aa da ba ca da ca aa aa -- ba da aa --|W..B|1|1
3|3|ac cc ca aa ba ab bb bc aa ab cb aa cb ac ba bb bb ab bc aa ca ac ac ab aa -- cc ab ac cb ca bc aa ac bb ba -- cc -- bb|.W.WWWWWW|0|9
3|3|cc cb bb ab ba aa ac bc ab cc aa ca bb ab ba aa ba bb -- ba ac ab bb bc ca ac ba cb cc aa ac ab bc aa ab -- cb aa ac cc bc ca bb ab cb ba ab ba ca aa aa -- ba cc bc ca aa ac bb cb ab ba ba cc ca cb cc -- ac cb ba ab ca cc aa bc bb bb aa ac ca ba -- ca aa cc ac bb ba ab cb ca bc ba bc aa cb ac cc bb ba aa ab -- aa -- ca -- ac bb ab ac cc cb ca aa ba ca bc ab|W.WWWWW..|0|9
3|3|ba aa ca cb bb bc ac cc ab cb aa cc bc cb cc cb ba ac aa ab cc bb ca bc ca ba -- aa -- ca cc bc bb ab ca cb aa ac cc bc cb ab ba ba bb cc ca aa ac ba ab cb aa aa ac bb ab ca ab ac ab cc ac bc cb aa bb ca cc ba ba -- bc -- aa ca bc ac cb ab bb aa cc ba cb cc bb bc cb bb cb ca bc ab ba aa ca ac cc bb cb ca cc ba bc ab bb ac ca aa ba ab ac aa ca ba ac cb bb ca|WWWWBWB..|2|5
3|3|cc bb ac bc cb ab aa ca ba ac aa cc ba cb aa ba aa ab bc ba bb cc cb ca cc ac cb bb bc aa ba bb aa ac ab -- cc -- ac -- bb ca ba cb ab cc bc bb ca bb ac cc cb -- aa -- bb cc bb ab ca cb bc ba ac aa ba cb ab cc aa cb cc cb ab bc ba ac bb cc aa ca ba ab aa -- bb cc bc ab ca cb cc ac ac -- cb ab bc ca cc cb ac ba bb bb bc cc ac aa ac bc ac cb aa ab bb ba ca bc|B.B.BWBW.|6|3
3|3|cb ca ac bb cc ba bc ab cb bc cc cb -- aa -- ac cc ac bc ba ab cb aa bb ac ca bc aa cc ac cc bc -- cc ab cb ca aa cc bb ba aa bc ac cc ba bc ab bc cc -- ca bc cb ac bb aa ba ab cc bc ca aa ac ab bc aa ab aa cc ca ab bc ba ac cb bb bb bc ca ac aa bc -- ac ab aa bb ba ca ba aa cc cb bc ba ac -- cc ca bb ba cb ab cc bc bb ac cb cc bb cb -- aa bb cb ab aa ac ba|WW.BBWB..|3|4
3|3|ba cc ca bc aa cb bb ac ab bc cc cb ac ac ab bb ca aa ba ba -- cc -- ca ab ba ca bb aa cc bc cb ac ab bc ca ac aa ac bc|WWWWWW.WW|0|9
3|3|ca aa ac ab cc bb ba cb bc ca bc cc ac ac -- bc ba ac cb bb aa bc ab ca cc cb aa ba ab ab -- aa cc bb ba ac ca aa cb ab bc bb ac aa ab -- bb aa cc cb ac bc ab bb ab ba ac ab -- cc -- ca ac ab bb cc ba bc ca ac aa cb bb ba -- bb -- ca aa ab ca cc bc ac ba bb cb aa ca bc cb ba cb ca cb ba ab bc ac cc ca aa bb bc cc ba aa -- bc ba bb ac cc ca bc aa cb ab cb cc|WWWW.BW.W|1|6
3|3|cb ba ca aa bb cc bc ab cc ac bb ca cb cc bc aa cc ca ac ab ba aa ab -- ca aa bb cb bc ab ac cc ba ab aa ca ab ca cc cb bb ba aa bc ac ab -- ac -- aa -- bb cc ac bc ab bb ba aa ca cb ba ac ca ca -- ab ba ca bc bb cb ab ac aa ab -- aa -- cc -- ca bb cc ab cb ca bc aa ac ba cb ac bc bb ac ab aa ca ba bb ca ab cc bb -- ab aa cc bc ba ac ac ca bc cb aa cb ca cb|.....W...|0|9
5|5|ea eb ca da cc bc cd ad db be ea ee ac ab aa ac ba ce cb da bd ed dc ec de bb dd cd cc dd cb ae ca dc db bd ba ea aa cb aa db ba de ca aa ba cc ca dd bd ac bb ee dc cd ce ae ec db ed ea bc ad ab be ac da aa eb ae cb de cc ea da ad cb cd eb be db ee cc dd bd ee cd ec ce ba ae de ea ac ed aa ad dd be ca bc ab bb dc ba ed ed aa ec de ee ab dd ac de aa dc ab ca|BWWWWBWWWW.WWWWWWWWWWWWWW|2|22
5|5|ee aa ce db ec eb cc bd ae ad cd cb bb ca dd bc ac da be ad bc ba de dc bd ed ab ea ad bc bb dd cc ad cd ee de ae ce ab bd ac be bb cc ec cd bd ce de be aa ee ab ed ae ca ad db cb ea dc ba eb dd ac bd bc bb ec da dc ad ec de aa bc ac ab eb aa eb cb ec dc ec ac eb eb -- ec ae eb be ad db ab dd ea bd de cb ba da ca ce aa ac ed cd bc ad bb dc cc ec aa cc eb bb|B..W..WWWBW.WWWWWWWBWWWB.|5|16
5|5|bc ce dd be ab ca db cb ae da ea ac ad ec dc de cd ee eb aa ed bd be bb cc ac ce de ec ee bd ee de ab ee ec ae bd ad ba ce be cd de ad ed dd cc ee eb dc ea de db cd de ae ee dd ce ae ad dc dc cd ae dd dd -- bc cd be ee dc ab ba dd ac ea db ae ce ad de da bb cc ed bd cb eb aa ca bc cc dd bd ab ec ae da ca eb cd ea ad ec bd eb cc ec ee da cc ce ae dd cb db ad|...B...WBB..W.BW..B.W.B..|10|4
5|5|ba ec bd ca be ae ee bb eb ce cb dc ed ac ab aa da ba ad cd ae de bc ab ab aa bb ba db dd ee ca aa ba ca cc ac ed ea ee ec de ba ee cc ce dc ed dd cd aa ba ac ae bd eb ca dc bb ec da cc cb ea be ad ad dd bc db de cc ec dc ce ea ed eb ba cd dd db cd eb cc db ae ea dc eb ee db ea db ab eb cd ac ee bb ba ab dd ad dc cc ec ae be ca da bc ea da ed ce aa de aa ce|B.WW.WW.WWWWWBBW.BBBWBW.B|8|14
5|5|dd db aa ea da de cc ad ed bc ac bb be ae bd ad ce dc ba ec cb ee ee eb ec ab ac bc bb ae dc ad ea eb bc db db ae eb ad ca ae cd ad ab ae ae -- de ad ee ae ca be ea ba ab de ce bb ac ec cc ed cb dc eb bc dd cd aa bd db aa da ca ea cb da eb db ab da dd db ee ea ac ea ce db cc da ac ab ad aa ed de bd ce ee cc dd ec cd ae cb ba be ca de bb dc eb bc cb db ec eb|........WWWW.W.WWWWW.W.WW|0|25
5|5|eb bc bd ba ec cb ad ac da bb cd aa dc ae dd be db ce ee ab cc ca cb ba ac bc ed aa bb ca bc de be ce ea de ab de aa ba ca ce ba de ae ce dc ec eb cd aa bd bb cb dd ad ac ae ba da ca bc db be cc ea ab ee ea ed ee de ec ce bd be bc ae cb cd ed ad de be da ae ad cd ce ae be -- ae cd ae be aa dd ab dc ad ca bc da db ec bd ed cc ce ba ee cb ea eb de ce dc de cd|BB...B.BBB.BBW.BBW..B.BB.|19|2
5|5|cb de bd ec ce ed cd ba ae db ad ac bc ee dd ca ab ea cc dc aa da bb eb ac ea dc da ca de ba eb db ec be ee ed ea eb de da ee de -- ec -- ea ee dd db ba de cb cc ce bb eb da cd ed ec ac bd ea ad ae ed bc dc aa ab de be bb ae bc ca ea ac ee db da da cc ea cc de bc aa bb cc bb bc -- ee bb cb ee cc ed aa ab ec ea ca da bd ae ba ad db dd bc ac eb be ea dc ce ab|BBB.BW.BBB.BBWB.B.WW..B.W|13|5
5|5|dd ab ce ae ed bc de cd ca da ec eb db ac cc bb ea ad da aa cb bd ee be dc ba ad aa ba ab bd be bc bb eb ae ae ac ab --|.BBBBB.BBB.BBBBBB.BBB.BBB|25|0
5|5|ba dc da bb ac ea ab cd ce bd ed ae de bc cb eb be dd ad ec ca db ee cc dd bd ea db cd bc ec dc aa cc ae bb eb bb dc cc bc -- cc -- bb -- db bd da ae ee ca ed cc be cd dd ea bc ab ec ad eb de ac db bb ea ba aa ab cb dc ce eb be dd da ee aa bb ec ab eb dc ac ed dd ba ee aa dc bc ab aa bb ba aa -- ed -- bc --|W.WWWWWWWWWWWWWWWWWWWWWWW|0|25
5|5|ab bc ee bb ac ba ad ea be bd ce de ae ed da aa ca ec cb dd db ee dc cd cc ab be ad ce ac ae ae ce be eb ce ce aa ee bd|W.BB...BBB..BB..W.....B.B|10|2
19|19|lr fd mf mg kc sj ff ma ca ie mc hc kf om fm jc fh fa mb ka gb jh fb pp rh ld na ig ge gf ke nl he nb la kb ne hg me ia lf lc gc hb ga fe nf fc jb fp hf ja qb md jf hd ha ra ng hq ic kd sc qg bn if lg gd ci nd lb aa fg ib id oa kg he gg qk jg ge je sa ma nc lb mc cq la mb fk os jb jd pg na kc le ma mb hf lb mb -- lb -- na oi ss cf or ir ik ph sl ok oe hl rj pd bb fq pj od bo ol dp mo dn rb ll dc jn hk ak pm mn pn qj dd ob qq lm jr cc ms ea br fr aq nq cn sg pf ad es lh ri sk de kl al qf pq oc an as dk ae hm cs lk oj ps sf il ji dm ar rl gl js bs sn ln ni er in cr ai gh gq go kp se po jp gm qo jm is ch ij eq og pb eb gc ga gb op fb gc gb kk fb gb dl ha -- ab -- ds -- qm -- fb ep kh dg qp cp ej hs nj ho qi ap fs bd aj sr bh bl hi lo mp rq sh cl li rf dq eg kr ko pe fi ag ei kj ec pi mi ef ee lq oo pa ba bj bc qc bp ro em nh nr lp bg ek so hj af bi no el kn gj hr es sp pc mk eo gp of me nf gk ke jf qs ne io ic kg kf jg mf jj id jd ck dr lf ng lg je le ic mf le jf kf lg ne lf jf me lf me lg mf pr mr id mf ce me ns me mf -- me mq eh do hn co sb da hh gs ip cb rg rm jo ao bk mj pl nn mm ks np rc gi fn dj gr rk ah ih kq ql ps km db fo rn qd kr dq pd er fl cs nk jk ac as sm rr cg di sd im jl qa bq lj pk es bs sq qn fs ds in dp am re rs fr on jq oh qr ml fj qe oq dh hp rd rp rf sr ab pp lp ro qs gl od np cm nq nm sc cr bb mp rr en df be si rb gn ar sq qh is pf lq dr cd eo os qp fo sd ns mp ag qo rc as ar sc ss bm bm cj rh di lp re fk or mh eh pk mk bo ds ni pr as er mp dq ri qo mj aa bf ad pr rs cj pb bh ej es nk cc dh oi ek cm dj ls ab ed be cr ak si rh go ri bk ol or dr el ok dn en bi qs mi eh rs si dj ek op bj dh qb qs ej mh mh iq jp im ce aa cs fs rc ej pd ab lk jo jn ek mj am eo hq mi ip qp in ph di ds en ae eh ae cs ki ad er qo ni ce oi ds dr io be jn ii hn pk he id oj ig hg lg lk be hc nb ja kg ic gb oh ng nd ga jf jc jb ka la mc ie hb pj if ni fa sf on lc kc na rk gd mg me le nc gc ld kd gf ha fe je jg fd kh ia mb ib ge mf nf md aj lf hd ke ma sd fb mc re kf md lb ne fc mc hf lh jd kb sb ka -- lb sk qa nl qk rh hh rd ql kk jj qi rc qc mj mm sc sl rb qj nm ea eo ii|BBBBWWWWWBBBBB..B..BBBB.BWWWBBBBW...BWBBBBBWWBBWWBBB..WBBBBBBBWBBWWWBBB...WW.WBBBBBBBWWWBB...B.BBBB.BBWWBWWWB....BBBBBBBBBWBWWWW.....BBBBBB.B..BB..B..W.BBBBBB..W....B..W..B.BBBB...B..B.BBW...BBBBBBB..WB....BWWBBBBBBBBBB...W..BBWBBBBBBBBBB..WB.B.BBBBBBBBBBBBB..BWBBBBBBBBBBBBBBBBBBBBBBBBBBBB.BBB.BBBBBB.BBBBB.BBBBBBBBBBBBBBBBBBWWBBBBBBBBBBBBBBBBBBBBBBBBBBBBBBBBB|243|48
19|19|rk eq bs cr dr dq fr aq gr cl fo ec cq fs ao oh dp go gp hh as gq cs eo co bq fp es er cp ds ep br gs do bp ap cq cm bo ar fq ce gb gh op fe ol pn el ri je cd kk qr ra ba dl dd ko mk gj ob jq kl ni ck nh oj sn oq an kn ap -- ao am rm og cb ai nr ga ke sg qs sf pf om ls ij gg rp qc ha im fn bd pj rr rq ph kp ok lb gk is ff ms bi qi hd ad hm os lf ro bc ca mb ah fa no gi ci ch pi ln qd qf oc pc qa io sr od jb jd rf nc nq eg qj in lg js oi hb da id gn hg jc eh lp pe hi ej pb mq sl ns il qn ef hl jj sd qb qg ik km bn oe mp ie hc kc me sk nk bb ps cn dk ll ne kh mj ss hp hn pp sp cj ql ml pa ak rg pd mi fd nb ek hq hr af dn si po ge ig rd ii dj mo ib ea se dc np cc gd hj sh gc mh mg di rh lk ki ji fk hf sc nj em bg nf nn lh lm kf ka mr fc jh dm oo iq hs db gs on fs -- es jp li dh fg bl gf nl fb en aa le qo jf pr jk pq na eb cf ee sb so pk nm mc mm if bm fj ja sm be ei cn df fh oa of qk ih lo qh qm rl sj rc aj re ab ho -- go kg kb fi pl qc kr pc bj md aj pm bh jn fm jg ip lq rd mf lr jo ae sd rs kf qc pl ic jr fa lj op ed bi ac nd fc kd ia rb hk al mn or ng ac he rr bb kq ib ag ma jl ks ab lc cg mj mk ia ss gl lq la ld cb ec bd mm jm jd hd ml ir dr bs es gr ar sq br hg gs fs nb ka as ar er cs if kf ie fr ds br sp ns es er ds rn kh as dr kj dr ds -- gb -- dr -- es np qq lf mc qp nr ff hf oa jf bk om rj kc mf hs -- gs ma mb nk gg sk hr nc pg pa se lc ns de bf qs dg le sh la gd si id je gm md sd mq nr se is mc ke db nr na jg mb kn sd qe sa cg sq he nm bc mk hh qq nk fc bd pc ml ka bb ed mm ns cb kg fl dp cm fp go jg do nr gp os dp co fo -- fp al bj pq lr no rp qp hb lq bi kp kr em mr bn ke oo ro bm qs ag bk dn dk jf bh pn fm sp rs ip bc nq so ra mq bd ak rr hb po pp qr ek ia fk ah aj kf lp ms mk ci bb qo am ke al ib nr ss ai mo ns ho sq kq gb hp bc lq hp kq ps op ah sb ck sh pr ji ms kp gn or kp sj rq qq ho oq np kc kq pp rs cb gb sr fn mp ps qs ge rs cn -- co bm hb gg id hg pr bn bn gb gd hb pr hh hd he bc np lq hf sp bb ag cj nm cj ci ge gd ps dn hd ip gd bm bc em pr nq qo qr id bb pa mc mo la fe rc qb oq pn os ea ia jc hb jj dc ka hi ec rr jb cj gf cd je sd oj rf hj id|....B...W.BW...B....W.....W.B......B.....WB....B..W....W...W.....W.....W...W.....B...B....WWW..WWWW..B........WWW.WWWWW........W.WWW.WWWWW.......WWWW...WWWWWWWW....WW.....WWWWWWWB.BWWWWB....WWWWWWWW.WWWWWWWW..WWWWWWWW...WWWWWW..WWWWWWWWWWWWWWWWWWWWWWWWWWWWWWWWWWBWWWWWWWWWWWWWWWB...BWWWWWWWWWWWWWW.....WWWWWWWWWWWWWWWWW..WWWWWWWWWWWWWWWW..WW.WWWWWWWWWWWWWWW....|16|203
";

/// A board, the colour that moves, the number of its point, and the board that the move makes.
pub(crate) const MOVES: &str = "\
4|2|BBB.BBBW|W|3|...W...W
3|3|W.WBBWWWW|B|1|.B.BB....
2|3|.BBBBB|W|0|W.....
3|2|BB.BBB|W|2|..W...
3|2|WWWWW.|B|5|.....B
2|3|BBB.BW|W|3|...W.W
7|1|BBBB.WW|W|4|....WWW
4|2|..BB.WBB|W|1|.W...W..
4|1|.BBB|W|0|W...
2|2|BB.B|W|2|..W.
2|2|WWW.|W|3|....
2|2|WWW.|B|3|...B
5|1|BBB.W|W|3|...WW
1|5|WWW.B|B|3|...BB
7|1|BBB.W.B|B|3|....W.B
4|2|.WB.WWBB|B|0|B.B...BB
3|3|BWB..B.WB|W|4|BW..W..W.
3|3|WB.W.BWB.|B|4|.B..BB.B.
1|3|B.B|W|1|.W.
3|1|BB.|W|2|..W
3|1|WW.|W|2|...
2|2|B.WW|B|1|BB..
2|2|BWB.|W|3|.W.W
5|1|.BW.W|B|3|.B.B.
5|1|.W.BB|W|2|.WW..
5|1|.WWB.|W|0|...B.
1|6|..B.WW|B|3|..BB..
1|6|..WWB.|B|1|.B..B.
6|1|.WWBB.|W|0|...BB.
2|3|B..BWW|B|2|B.BB..
1|2|.B|B|0|..
2|1|.W|W|0|..
5|1|.BWW.|B|0|..WW.
5|1|B.W.B|B|3|B.W..
5|1|W.BB.|W|1|..BB.
5|1|W.WB.|B|4|W.W..
2|1|.W|B|0|B.
1|2|B.|W|1|.W
2|1|W.|B|1|.B
1|3|..B|W|1|.W.
4|1|...B|W|2|..W.
2|2|..BW|W|0|W..W
4|1|.WB.|W|3|.W.W
4|1|B.B.|W|1|.WB.
5|5|.B..W.B..B...BWB....W..WW|B|22|.B..W.B..B...BWB....W.BWW
5|5|.B.BWBBBWW....B.BB......W|B|15|.B.BWBBBWW....BBBB......W
7|7|.........B........B.....B......................W.|W|8|........WB........B.....B......................W.
7|7|....B.B.........W.........................W....W.|B|41|....B.B.........W........................BW....W.
7|7|..BB.B....BW...B.W......BBW..W...BBB...WWWW.WW.WW|W|30|..BB.B....BW...B.W......BBW..WW..BBB...WWWW.WW.WW
7|7|W.................................B..............|B|15|W..............B..................B..............
7|7|WBBBWB..WBBWBWBBW.W.W.BWBW.W..WWBBB....B.WBW.B..W|B|38|WBBBWB..WBBWBWBBW.W.W.BWBW.W..WWBBB...BB.WBW.B..W
7|7|WBBBWB..WBBWBWBBW.W.W.BWBW.W..WWBBB...BB.WBW.B..W|B|40|WBBBWB..WBBWBWBBW.W.W.BWBW.W..WWBBB...BBBWBW.B..W
";

/// Stones, and the least lifeless one's number, or a dash and the scores where there is none.
pub(crate) const SET_UPS: &str = "\
1|1|.|-|0|0
1|1|B|0|0|0
2|1|BB|0|0|0
2|2|B...|-|4|0
3|1|B.W|-|1|1
3|1|BB.|-|3|0
4|1|..W.|-|0|4
4|1|.BWB|2|0|0
3|3|.WB.WBWWB|2|0|0
";

/// A board, and on which of its empty points a play of Black's is known to be quiet: `Q`.
pub(crate) const QUIET_PLAYS: &str = "\
1|1|.|.
2|2|B..B|....
2|3|.W.B..|..Q.QQ
3|2|.WB...|Q..QQQ
";

/// The turns of a game, and the most chains that a play takes at once, the most stones of a suicide and the most chains that a play joins.
pub(crate) const CHAIN_GAMES: &str = "\
5|5|ad ab da db ed ce bc bd ca dd dc ec ac cc de eb aa cd cb be bb dc ee ae de ee ab ea ba bb ab ca ad aa ac cb ba da aa ed|1|10|4
5|5|be ed ab ee de cd ea bc da dc cc cb ac ba ae ad bd ce aa cc eb dd db ad ae de bb ac aa ca bd bb be ab ae bd be be ec eb|1|5|4
5|5|ab dd cc ec de bc da cd eb db aa ad ba cb ed be dc ca ea ec ac da dc bb ce eb ac bd ab cc aa ba ac ea ee ee ce ae ab de|2|4|4
5|5|db da bb cc ba de aa cd ca dc ea ee ce ec da ad cb ab dd ac be ae bc ed eb dd bd ae cc dd ed dc ec ac ab de ad cd ae ee|2|5|3
5|5|ea eb ca da cc bc cd ad db be ea ee ac ab aa ac ba ce cb da bd ed dc ec de bb dd cd cc dd cb ae ca dc db bd ba ea aa cb aa db ba de ca aa ba cc ca dd bd ac bb ee dc cd ce ae ec db ed ea bc ad ab be ac da aa eb ae cb de cc ea da ad cb cd eb be db ee cc dd bd ee cd ec ce ba ae de ea ac ed aa ad dd be ca bc ab bb dc ba ed ed aa ec de ee ab dd ac de aa dc ab ca|1|19|3
5|5|ee aa ce db ec eb cc bd ae ad cd cb bb ca dd bc ac da be ad bc ba de dc bd ed ab ea ad bc bb dd cc ad cd ee de ae ce ab bd ac be bb cc ec cd bd ce de be aa ee ab ed ae ca ad db cb ea dc ba eb dd ac bd bc bb ec da dc ad ec de aa bc ac ab eb aa eb cb ec dc ec ac eb eb -- ec ae eb be ad db ab dd ea bd de cb ba da ca ce aa ac ed cd bc ad bb dc cc ec aa cc eb bb|2|14|3
19|19|da ed db fp gc fa ge hc bs cd eb dd cc ad cb gb cp ac ha bk dc fs ab fc ce hd jf aa de bb be ee ae fb ga gd fe ab he bc hb mh ec ca fd ba ea rd eb bd dc ec cc ea qb gc cb qq da db dr oi cb da cc mj dc eb cb hg cc dc cc cb -- cc ii jk hr rh lf cq fg ne mg ph eg ka fo pe gi ma ir km ig dh lo sr qp or ki ls pi rm il se dk ah kr io og nr lq gg mp qg lm kq bj mi ef ep ld nf pn dj eq hs po lj mm ej ra qn lr co cg oo gn ll re lb dp gs ap nq hh nm kk gr df ci bm oq jn ob fj di hl kh jd cr pr sb mf pb ke rk pf qr jl jb na fr if si qc el kl ss is dn es ji al kg jr rl pq nd od ql mc ln ko ak bn qm jh lp bh rf gh rq id hj ks cm jo dq qd om pd dm bi pg jm dl ok cs ri hi mq bl bg nh rn eo hp er lg sh rs hq qa bq li kn hm af an aq ih sc ho ip sg oa mo nb oj pp ml gj sp nk qj ng qk ag sn ai qs sl kb ds pl ni jp es dg am ib gl me br ao jq pc mk do pk gk sk rc as em iq nl pm qf qh lh on qe ik js aj sd so ei gq fk ps kd ek ol bo oh gm jg cl hf ms rr rp oe qs rs md jj fl go ie eh ja ic db bd hd fb gb ca dd bb ec da bc ea lk dc eb cb ba cd fc hc gd fa gc ed hd gc cc ee ad gd oc ac db fc ec ad cc bc ab hd eb fn aa eb ab db ba en aa ba aa ab -- pq -- sq sq dd im al -- cc -- ec -- aa -- bf -- gb fq qi no sf ck hn in ro pr kj kf sj kc ns ff cj ar gp eq ji nj nc bs nn fm kf sa gf pj kh dr ia la hk fi rj mr pj pq pk sp ij gg np kp bp na mb rr kq bq ch rg iq cq eo cs rg lp fp si gr bs pe sm ff hq hg dq pa qg qo io sn hs gj es im lc cr fh ph rn of ro se rb dr op pn qo cn qp jk gs aq er ip hi kg ep sh fs jc kb bo dk os mb cf os gl ai rd ek po bl dm ah hj ar am fi kp pg ak dh af cm fr cl mc eq qh dj ej qg mn km gq ns in gm ck kn hq pn sb el sc bk rb dk jq di ag fm fh sn pg br je nc co ds ln mc rf kn lk kb nh jb nb oi ka ni mb lc mi md nk km ob oc ne ja io km le lb oa nd gg aj lj ma na cr hi mk dn mj nc ai kn fl ik aj la nj ng oi ma ci mc dr dl dj ni ek md bk pb bl rh kc lc dk mh as fm rs ll fl mj ci ah po nj ms om di oi qs qn fq rl es hs ai sa br oc bs op ps nr qm ro rp sp ds mk gs sm nq nm bq si pm aj er kb pr po qr qp sk kc eq on rk cs rr ns rq cm sn pn sr so cl mr jb as ja no rm ep rs or sl|3|48|4
";
