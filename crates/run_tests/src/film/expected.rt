//! Films of configurations, most of them those of `examples/`, as plain Rust writes them (`bench/plain/film.rs`).

/// Words, lines of a configuration, its start, its schedule (how often each text of letters comes in a row, with
/// semicolons between them), and what is shown: the lines of a page. Of longer lines, and of a picture, it is the
/// number of bytes, their checksum FNV-1a, and of lines also their number and the last one. Bars separate the rows; in
/// a row arrows stand between these and a remark.
pub const FILMS: &str = "\
./film =>  => 0000000000 => 31 p => \
start;0;claim entry,,,0;claim entry,0,0;turn to table,0,0,300,0,0;\
claim first,1000;claim entry,,,0;raise to fetch,0,900,0
p;leave for middle;claim z3;done;10000000400;
p;move to middle;pose travelling;done;20000002400;
p;;;;;980-
p;;;;;960-
p;;;;;940-
p;;;;;920-
p;;;;;900-
p;;;;;880-
p;;;;;860-
p;;;;;840-
p;;;;;820-
p;;;;;800-
p;;;;;780-
p;;;;;760-
p;;;;;740-
p;;;;;720-
p;;;;;700-
p;;;;;680-
p;;;;;660-
p;;;;;640-
p;;;;;620-
p;;;;;600-
p;;;;;580-
p;;;;;560-
p;;;;;540-
p;;;;;520-
p;;;;;500-
p;pose middle;;;;500
p;release interior;pose middle;done;30000004400;
p;take plate;release z3;done;40000004000;
p;;take z3;notowner free;;
 => `examples/press.toml`|\
./film =>  => 0010000000 => 37 t => \
start;100000000;claim entry,,,0;claim entry,0,0;turn to table,0,0,300,0,0;\
claim first,1000;claim entry,,,0;raise to fetch,0,900,0
t;claim exit;claim z1;done;10100000001;
t;leave for unloading;claim z2;done;20100000021;
t;move to unloading;pose turning;done;30100000129;
t;;;;;20+,20+
t;;;;;40+,40+
t;;;;;60+,60+
t;;;;;80+,80+
t;;;;;100+,100+
t;;;;;120+,120+
t;;;;;140+,140+
t;;;;;160+,160+
t;;;;;180+,180+
t;;;;;200+,200+
t;;;;;220+,220+
t;;;;;240+,240+
t;;;;;260+,260+
t;;;;;280+,280+
t;;;;;300+,300+
t;;;;;320+,320+
t;;;;;340+,340+
t;;;;;360+,360+
t;;;;;380+,380+
t;;;;;400+,400+
t;;;;;420+,420+
t;;;;;440+,440+
t;;;;;460+,460+
t;;;;;480+,480+
t;;;;;500+,500+
t;;;;;520+,500
t;;;;;540+,500
t;;;;;560+,500
t;;;;;580+,500
t;;;;;600+,500
t;pose unloading;;;;600,500
t;give plate;pose unloading;done;40100000321;
t;claim back;give z2;done;500000003c1;
t;;claim z2;held robot;;
 => `examples/table.toml`|\
./film =>  => 0000000000 => 1 DCW => \
start;0;claim entry,,,0;claim entry,0,0;turn to table,0,0,300,0,0;\
claim first,1000;claim entry,,,0;raise to fetch,0,900,0
D;;claim z4;busy;;
C;travel to deposit;;;;
W;;stop;busy;;
 => Busy turns of the deposit belt, the crane and the watch; by hand.|\
./film =>  => 1000000000 => 6 t;61 f;1 r;30 p;4 d;2 c;35 t;249 r;84 p;35 t;277 r;30 p;57 d;340 c;1 f => \
    23883 bytes, 4b0e29e7ed1766cb, 1213 lines, f;start in;take z6;done;3b006380c030;0,,0 => \
    `examples/carried_round.toml`|\
./film =>  => 1001000010 => 1283 ftrpdc => \
    67889 bytes, b1215fb24a72522e, 7699 lines, c;travel to deposit;;;; => \
    `examples/three_plates.toml`|\
./film => \
arm1 = { raw = [0, 1501], tol = 1 }
arm2 = { raw = [3, 2004], tol = 1 }
rotation = { raw = [7, 4094], tol = 1 }
turn = { raw = [1, 1000], tol = 1 }
gripper = { raw = [5, 1508], tol = 10 }
 => 1000000000 => 6 t;61 f;1 r;30 p;4 d;2 c;35 t;245 r;84 p;35 t;272 r;30 p;57 d;343 c;1 f => \
    23751 bytes, 5cce5588ae3598a0, 1207 lines, f;start in;take z6;done;3b006380c030;0,,0 => \
    `examples/rounded_down.toml`|\
./film =>  => 0000000000 => 0 p => \
    122 bytes, ba14dc031b433260, 1 lines, start;0;claim entry,,,0;claim entry,0,0;turn to table,0,0,300,0,0;\
    claim first,1000;claim entry,,,0;raise to fetch,0,900,0 => \
    Nothing happens.|\
./film =>  => 1011101010 => 400 ftrpdc => \
    18015 bytes, 5cb4ca3d1845bb6e, 2401 lines, c => \
    The start of `examples/standstill.toml`, with turns in rotation.|\
./film =>  => 0000000000 => 100001 P => \
    200150 bytes, e63dd79f2945ca59, 100002 lines, cut 100001 => \
    One turn more than a film shows.|\
./film --loop =>  => 0000000000 => 31 p => 10193 bytes, b63f4fbace3c9866 => `examples/press.toml`|\
./film --loop =>  => 0010100000 => 4 tp;1 w;45 tp;1 w;25 tp => 14321 bytes, 1ee09349b6295ef1 => \
    `examples/stop_and_resume.toml`|\
./film --loop =>  => 1000000000 => 6 t;61 f;1 r;30 p;4 d;2 c;35 t;249 r;84 p;35 t;277 r;30 p;57 d;340 c;1 f => \
    12500 bytes, 384b696db937e558 => `examples/carried_round.toml`|\
./film --loop =>  => 1001000010 => 1283 ftrpdc => 16784 bytes, 602ea8aef5738ada => `examples/three_plates.toml`";
