// Textures that are made of what is given, with a default, and the first faults of looks; by hand.
pub static MADE: [(&[u8], &[u8], &str); 23] = [
    (
        b"",
        b"",
        "plain 0/0/0/0/0 at 0 by 4294967296; 6554 39322 0 40 0 20 0; 65536",
    ),
    (
        b"",
        b"pigment { gradient y }",
        "gradient 0/65536/0 [0 0/0/0/0/0][65536 65536/65536/65536/0/0] at 0 by 4294967296; 6554 39322 0 40 0 20 0; 65536",
    ),
    (
        b"",
        b"pigment { gradient -x color_map { [0.5 rgb 1] } }",
        "gradient -65536/0/0 [32768 65536/65536/65536/0/0] at 0 by 4294967296; 6554 39322 0 40 0 20 0; 65536",
    ),
    (
        b"pigment { rgb 1 } finish { diffuse 1 }",
        b"finish { ambient 1 }",
        "plain 65536/65536/65536/0/0 at 0 by 4294967296; 65536 39322 0 40 0 20 0; 65536",
    ),
    (
        b"finish { phong 1 }",
        b"pigment { rgb 0 translate x }",
        "plain 0/0/0/0/0 at 65536 by 4294967296; 6554 39322 65536 40 0 20 0; 65536",
    ),
    (
        b"pigment { rgb 1 }",
        b"texture { }",
        "plain 65536/65536/65536/0/0 at 0 by 4294967296; 6554 39322 0 40 0 20 0; 65536",
    ),
    (
        b"pigment { gradient x color_map { [0 rgb 1][1 rgb 0] } scale 2 }",
        b"finish { }",
        "gradient 65536/0/0 [0 65536/65536/65536/0/0][65536 0/0/0/0/0] at 0 by 8589934592; 6554 39322 0 40 0 20 0; 65536",
    ),
    (
        b"",
        b"texture { pigment { rgb 1 } } finish { diffuse 0 } texture { finish { } }",
        "plain 65536/65536/65536/0/0 at 0 by 4294967296; 6554 39322 0 40 0 20 0; 65536",
    ),
    (
        b"",
        b"material { texture { pigment { brick } } interior { ior 2 } } pigment { checker }",
        "checker 0/0/65536/0/0 0/65536/0/0/0 at 0 by 4294967296; 6554 39322 0 40 0 20 0; 131072",
    ),
    (
        b"",
        b"interior { ior 2 } interior { }",
        "plain 0/0/0/0/0 at 0 by 4294967296; 6554 39322 0 40 0 20 0; 65536",
    ),
    (
        b"",
        b"material { interior { ior 3 } } material { texture { } }",
        "plain 0/0/0/0/0 at 0 by 4294967296; 6554 39322 0 40 0 20 0; 196608",
    ),
    (
        b"interior { ior 3 }",
        b"pigment { rgb 1 } pigment { }",
        "plain 0/0/0/0/0 at 0 by 4294967296; 6554 39322 0 40 0 20 0; 65536",
    ),
    (
        b"",
        b"pigment { brick rgb 1 mortar 0.25 brick_size <2,3,4> }",
        "brick 65536/65536/65536/0/0 39322/9830/9830/0/0 131072/196608/262144 16384 at 0 by 4294967296; 6554 39322 0 40 0 20 0; 65536",
    ),
    (
        b"",
        b"pigment { hexagon rgb 1 }",
        "hexagon 65536/65536/65536/0/0 0/65536/0/0/0 65536/0/0/0/0 at 0 by 4294967296; 6554 39322 0 40 0 20 0; 65536",
    ),
    (
        b"",
        b"pigment { rgb 1 color_map { [0 rgb 1] } mortar 2 }",
        "plain 65536/65536/65536/0/0 at 0 by 4294967296; 6554 39322 0 40 0 20 0; 65536",
    ),
    (
        b"pigment { rgb 1 } pigment { hexagon }",
        b"",
        "hexagon 0/0/65536/0/0 0/65536/0/0/0 65536/0/0/0/0 at 0 by 4294967296; 6554 39322 0 40 0 20 0; 65536",
    ),
    (b"", b"pigment 5", "expected OpenBrace @8"),
    (
        b"",
        b"pigment { rgb 1 } finish { ambient 17 } interior { ior 17 }",
        "range @35",
    ),
    (
        b"",
        b"finish { } interior { ior 17 } pigment { rgb 300 }",
        "range @26",
    ),
    (b"", b"material { finish { } }", "no finish @11"),
    (b"", b"texture { interior { } }", "no interior @10"),
    (b"", b"pigment { rgb 1 rgb 2 }", "no rgb @16"),
    (
        b"",
        b"texture { texture { pigment { } } pigment { scale 0 } }",
        "Singular @50",
    ),
];
