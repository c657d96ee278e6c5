// Lamps in the world, and their first faults. Numbers were worked out by a program of whole numbers.
pub static FOUND: [(&[u8], &str); 19] = [
    (b"light_source { 0, rgb 1 }", "0/0/0 65536/65536/65536 0"),
    (
        b"light_source { <1,2,3> rgb <1,0.5,256> shadowless }",
        "65536/131072/196608 65536/32768/16777216 1",
    ),
    (
        b"light_source { 0, 1 spotlight }",
        "0/0/0 65536/65536/65536 0 spot 0/0/65536 56756 46341 0",
    ),
    (
        b"light_source { 0, 1 spotlight radius 0 falloff 90 tightness 100 point_at <0,0,-3> }",
        "0/0/0 65536/65536/65536 0 spot 0/0/-65536 65536 0 100",
    ),
    (
        b"light_source { <1,1,0>, 1 spotlight radius 60 falloff 20 point_at <4,5,0> }",
        "65536/65536/0 65536/65536/65536 0 spot 39322/52429/0 32768 61584 0",
    ),
    (
        b"light_source { 1, 1 spotlight point_at 1 }",
        "65536/65536/65536 65536/65536/65536 0 spot 0/0/65536 56756 46341 0",
    ),
    (
        b"light_source { x, 1 spotlight point_at y rotate 90*z translate <0,0,5> }",
        "0/65536/327680 65536/65536/65536 0 spot -46341/-46341/0 56756 46341 0",
    ),
    (
        b"light_source { 1, 1 translate 2*x }",
        "196608/65536/65536 65536/65536/65536 0",
    ),
    (
        b"light_source { 1, 1 scale 2 translate x scale <1,-3,1> }",
        "196608/-393216/131072 65536/65536/65536 0",
    ),
    (
        b"light_source { 0, 1 fade_distance 1 fade_power 2 }",
        "0/0/0 65536/65536/65536 0 fade 65536 2",
    ),
    (
        b"light_source { 0, 1 fade_distance 1048576 fade_power 4 }",
        "0/0/0 65536/65536/65536 0 fade 68719476736 4",
    ),
    (
        b"light_source { 0, 1 fade_distance 1 fade_power 0.49999 }",
        "0/0/0 65536/65536/65536 0",
    ),
    (
        b"light_source { 0, 1 fade_distance 1 fade_power 0.5 }",
        "0/0/0 65536/65536/65536 0 fade 65536 1",
    ),
    (
        b"light_source { 0, 1 fade_distance 0 fade_power 2 }",
        "0/0/0 65536/65536/65536 0",
    ),
    (
        b"light_source { 0, 1 spotlight tightness 2.5 radius 45.5 radius 10 }",
        "0/0/0 65536/65536/65536 0 spot 0/0/65536 64540 46341 3",
    ),
    (
        b"light_source { <1048576,0,-1048576>, 1 }",
        "68719476736/0/-68719476736 65536/65536/65536 0",
    ),
    (
        b"light_source { <1048577,0,0>, 1 translate -x }",
        "68719476736/0/0 65536/65536/65536 0",
    ),
    (
        b"light_source { 0, 1 point_at <0,2097152,0> scale 0.5 }",
        "0/0/0 65536/65536/65536 0",
    ),
    (
        b"light_source { light_source { <1,0,0>, 1 radius 5 spotlight translate y } shadowless translate y }",
        "65536/131072/0 65536/65536/65536 1 spot -46341/0/46341 65287 46341 0",
    ),
];

pub static FAULTS: [(&[u8], &str); 28] = [
    (b"light_source 5", "expected OpenBrace @13"),
    (b"light_source { 0, 1", "expected CloseBrace @19"),
    (b"light_source { 0 }", "expected Parameter @17"),
    (b"light_source { shadowless }", "no shadowless @15"),
    (
        b"light_source { 0, 1, shadowless }",
        "expected CloseBrace @19",
    ),
    (b"light_source { 0, 1 looks_like }", "no looks_like @20"),
    (b"light_source { 0, rgb 256.1 }", "range @18"),
    (b"light_source { 0, rgb <0,0,-0.1> }", "range @18"),
    (b"light_source { rgb 0, 1 }", "expected Parameter @15"),
    (b"light_source { 0, 1 radius 91 }", "range @27"),
    (b"light_source { 0, 1 radius -1 }", "range @27"),
    (b"light_source { 0, 1 falloff 90.1 }", "range @28"),
    (b"light_source { 0, 1 tightness 100.1 }", "range @30"),
    (
        b"light_source { 0, 1 tightness x }",
        "expected Parameter @30",
    ),
    (
        b"light_source { 0, 1 fade_distance 1048576.1 }",
        "range @34",
    ),
    (b"light_source { 0, 1 fade_power 4.1 }", "range @31"),
    (
        b"light_source { 0, 1 point_at rgb 1 }",
        "expected Parameter @29",
    ),
    (b"light_source { 0, 1 scale 0 radius 91 }", "Singular @26"),
    (b"light_source { 0, 1 translate 4097 }", "AnchorRange @30"),
    (b"light_source { <1048577,0,0>, 1 }", "range @15"),
    (
        b"light_source { <0,0,-1048577>, 1 looks_like }",
        "no looks_like @33",
    ),
    (
        b"light_source { <1048577,0,0>, 1 translate 4097 }",
        "AnchorRange @42",
    ),
    (b"light_source { 0, 1 point_at <0,1048577,0> }", "range @29"),
    (
        b"light_source { 0, 1 point_at <0,1048577,0> radius 91 }",
        "range @50",
    ),
    (
        b"light_source { <0,1048577,0>, 1 spotlight point_at <1048577,0,0> }",
        "range @15",
    ),
    (b"light_source { 1048576, 1 translate x }", "range @15"),
    (
        b"light_source { light_source { 0, 1 } 0, 1 }",
        "expected CloseBrace @37",
    ),
    (
        b"light_source { light_source { 1048577, 1 } shadowless }",
        "range @30",
    ),
];
