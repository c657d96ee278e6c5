// Scenes with what they come to, or their first fault, worked out by hand from the rules.
pub static SETTINGS: [(&[u8], &str); 6] = [
    (b"", "0 0 65536 5 257"),
    (b"background { rgb <1,0,0.5> }", "65536 32768 65536 5 257"),
    (
        b"background { rgb 1 } background { blue 2 }",
        "0 131072 65536 5 257",
    ),
    (
        b"global_settings { max_trace_level 9 } global_settings { adc_bailout 0 }",
        "0 0 65536 9 0",
    ),
    (
        b"global_settings { ambient_light 0 max_trace_level 1 } background { 1 } global_settings { max_trace_level 2 }",
        "65536 65536 0 2 257",
    ),
    (b"#default { } global_settings { }", "0 0 65536 5 257"),
];

pub static VIEWS: [(&[u8], &str); 7] = [
    (b"", "0 65536 87163 perspective"),
    (b"camera { }", "0 65536 87163 perspective"),
    (
        b"camera { location x orthographic }",
        "65536 65536 87163 orthographic",
    ),
    (
        b"camera { location x } camera { right 2*x }",
        "0 65536 131072 perspective",
    ),
    (
        b"camera { camera { location x } right x }",
        "65536 65536 65536 perspective",
    ),
    (
        b"camera { location x translate x scale 2 }",
        "262144 131072 174326 perspective",
    ),
    (
        b"camera { orthographic } background { 1 } camera { perspective }",
        "0 65536 87163 perspective",
    ),
];

pub static LIGHTS: [(&[u8], &str); 5] = [
    (b"", ""),
    (b"light_source { x, rgb 1 }", " 65536/65536"),
    (
        b"light_source { x, 1 } light_source { 2*x rgb <2,0,0> shadowless }",
        " 65536/65536 131072/131072s",
    ),
    (
        b"light_source { light_source { x, 1 shadowless } translate x }",
        " 131072/65536s",
    ),
    (
        b"light_source { 0, 1 spotlight fade_distance 1 fade_power 1 }",
        " 0/65536cf",
    ),
];

pub static OBJECTS: [(&[u8], &str); 6] = [
    (b"sphere { 0, 1 } sphere { 0, 1 }", " 0; 1;"),
    (
        b"union { sphere { 0, 1 } box { 0, 1 } } sphere { 0, 1 no_shadow }",
        " (union 0 1); 2 shadowless;",
    ),
    (b"triangle { 0, x, y } sphere { 0, 1 }", " 0;"),
    (
        b"union { triangle { 0, x, y } } union { sphere { 0, 1 } triangle { 0, x, y } }",
        " (union 0);",
    ),
    (
        b"object { difference { sphere { 0, 1 } sphere { 0, 1 } } inverse }",
        " !(first 0 1);",
    ),
    (
        b"light_source { 0, 1 } merge { sphere { 0, 1 } } camera { } intersection { sphere { 0, 1 } sphere { 0, 1 } }",
        " (merge 0); (common 1 2);",
    ),
];

pub static LEAVES: [(&[u8], &str); 8] = [
    (b"sphere { 0, 1 } sphere { 0, 1 }", " 0:0:65536 1:0:65536"),
    (
        b"sphere { 0, 1 pigment { } } sphere { 0, 1 } sphere { 0, 1 finish { } }",
        " 0:1:65536 1:0:65536 2:2:65536",
    ),
    (
        b"#default { pigment { rgb 1 } } sphere { 0, 1 }",
        " 0:1:65536",
    ),
    (
        b"sphere { 0, 1 } #default { finish { } } sphere { 0, 1 } #default { } sphere { 0, 1 }",
        " 0:0:65536 1:1:65536 2:2:65536",
    ),
    (
        b"sphere { 0, 1 pigment { } } #default { } sphere { 0, 1 } sphere { 0, 1 pigment { } }",
        " 0:1:65536 1:2:65536 2:3:65536",
    ),
    (
        b"union { sphere { 0, 1 pigment { } } sphere { 0, 1 interior { ior 2 } } sphere { 0, 1 } } sphere { 0, 1 inverse }",
        " 0:1:65536 0:0:131072 0:0:65536 1:0:65536in",
    ),
    (
        b"triangle { 0, x, y pigment { } } sphere { 0, 1 pigment { } }",
        " 0:2:65536",
    ),
    (
        b"difference { sphere { 0, 1 } sphere { 0, 1 } interior { ior 1.5 } }",
        " 0:0:98304 0:0:98304n",
    ),
];

pub static SHEETS: [(&[u8], &str); 4] = [
    (b"triangle { 0, x, y }", " 0:65536"),
    (
        b"mesh { triangle { 0, x, y texture { pigment { } } } smooth_triangle { 0, z, x, z, y, z } no_shadow }",
        " 1:65536s 0:65536sm",
    ),
    (
        b"#default { } union { triangle { 0, x, y } sphere { 0, 1 } finish { } } triangle { 0, x, y interior { ior 2 } }",
        " 2:65536 1:131072",
    ),
    (
        b"object { triangle { 0, x, y no_shadow } } union { triangle { 0, x, y no_shadow } }",
        " 0:65536s 0:65536",
    ),
];

pub static TEXTURES: [(&[u8], &str); 8] = [
    (b"", " p0@0d39322"),
    (
        b"sphere { 0, 1 pigment { rgb 1 } }",
        " p0@0d39322 p65536@0d39322",
    ),
    (
        b"#default { finish { diffuse 1 } } sphere { 0, 1 pigment { rgb 1 } }",
        " p0@0d39322 p0@0d65536 p65536@0d65536",
    ),
    (
        b"#default { finish { diffuse 1 } } #default { pigment { rgb 2 } } sphere { 0, 1 finish { } }",
        " p0@0d39322 p0@0d65536 p131072@0d65536 p131072@0d39322",
    ),
    (
        b"#default { pigment { rgb 1 translate x } } sphere { 0, 1 finish { } translate x }",
        " p0@0d39322 p65536@65536d39322 p65536@65536d39322",
    ),
    (
        b"union { sphere { 0, 1 pigment { checker } } translate x }",
        " p0@0d39322 c0@65536d39322",
    ),
    (
        b"sphere { 0, 1 pigment { gradient x translate x } scale 2 }",
        " p0@0d39322 g2@131072d39322",
    ),
    (
        b"sphere { 0, 1 pigment { brick } } sphere { 0, 1 pigment { hexagon } }",
        " p0@0d39322 b32768@0d39322 h0@0d39322",
    ),
];

pub static FAULTS: [(&[u8], &str); 20] = [
    (b"foo", "out of profile foo @0"),
    (b"5", "expected Item @0"),
    (b"{", "expected Item @0"),
    (b"sphere { 0, 1 }, sphere { 0, 1 }", "expected Item @15"),
    (b"texture { }", "out of profile texture @0"),
    (b"union", "expected OpenBrace @5"),
    (b"torus { 1, 0.2 }", "out of profile torus @0"),
    (b"# 5", "expected Item @2"),
    (b"#", "expected Item @1"),
    (b"# foo { }", "out of profile foo @2"),
    (b"#default", "expected OpenBrace @8"),
    (b"default { }", "out of profile default @0"),
    (b"#default { interior { } }", "out of profile interior @11"),
    (b"sphere { 0, 1 } }", "expected Item @16"),
    (b"background { rgb 1", "expected CloseBrace @18"),
    (b"camera { angle 180 }", "range @15"),
    (b"camera { look_at 0 }", "range @17"),
    (b"light_source { 1048577*x, 1 }", "range @15"),
    (b"light_source { 0 }", "expected Parameter @17"),
    (b"global_settings { assumed_gamma 2.2 }", "range @32"),
];

pub static LATE: [(&[u8], &str); 17] = [
    (b"sphere { 4096*x, 1 translate x }", "AnchorRange @9"),
    (
        b"sphere { 4096*x, 1 translate x foo }",
        "out of profile foo @31",
    ),
    (b"sphere { 4096*x, 1 translate x } foo", "AnchorRange @9"),
    (
        b"foo sphere { 4096*x, 1 translate x }",
        "out of profile foo @0",
    ),
    (
        b"union { sphere { 4096*x, 1 } sphere { 0, 1 } translate x }",
        "AnchorRange @17",
    ),
    (
        b"union { sphere { 0, 1 } sphere { 4096*x, 1 } translate x }",
        "AnchorRange @33",
    ),
    (
        b"union { triangle { 4096*x, 0, y } sphere { 4096*x, 1 } translate x }",
        "AnchorRange @19",
    ),
    (
        b"union { sphere { 4096*x, 1 } triangle { 4096*x, 0, y } translate x }",
        "AnchorRange @17",
    ),
    (
        b"union { sphere { 0, 1 } triangle { 0, 4096*x, y } translate x }",
        "AnchorRange @38",
    ),
    (b"sphere { 0, 1 scale 0 }", "Singular @20"),
    (b"sphere { 4096*x, 1 translate x scale 0 }", "Singular @37"),
    (b"sphere { 0, 4097 }", "range @12"),
    (
        b"sphere { 4096*x, 1 translate x } sphere { 0, 4097 }",
        "AnchorRange @9",
    ),
    (b"union { }", "expected Part @8"),
    (b"mesh { }", "expected Part @7"),
    (b"object { }", "expected Item @9"),
    (
        b"difference { sphere { 0, 1 } triangle { 0, x, y } }",
        "out of profile triangle @29",
    ),
];
