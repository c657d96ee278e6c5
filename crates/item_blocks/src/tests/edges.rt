// Each parameter at the ends of its range and past them, and the first of two faults; by hand.
pub static EDGES: [(&[u8], &str); 30] = [
    (
        b"{ texture { finish { ambient 16 diffuse 16 phong 16 phong_size 65535 specular 16 roughness 1 reflection 1 } } }",
        "-; 1048576 1048576 1048576 65535 1048576 1 65536; 0",
    ),
    (
        b"{ texture { finish { ambient 0 diffuse 0 phong 0 phong_size 1 specular 0 roughness 1/65536 reflection 0 } } }",
        "-; 0 0 0 1 0 65536 0; 0",
    ),
    (b"{ texture { finish { ambient 16.1 } } }", "range @29"),
    (
        b"{ texture { finish { ambient <0,0,-0.1> } } }",
        "range @29",
    ),
    (b"{ texture { finish { diffuse 16.1 } } }", "range @29"),
    (b"{ texture { finish { diffuse -0.1 } } }", "range @29"),
    (b"{ texture { finish { phong 16.1 } } }", "range @27"),
    (b"{ texture { finish { phong_size 0.9999 } } }", "range @32"),
    (
        b"{ texture { finish { phong_size 65535.1 } } }",
        "range @32",
    ),
    (b"{ texture { finish { specular 16.1 } } }", "range @30"),
    (b"{ texture { finish { roughness 1.1 } } }", "range @31"),
    (b"{ texture { finish { reflection 1.1 } } }", "range @32"),
    (
        b"{ texture { finish { reflection { <0,1.1,0> } } } }",
        "range @34",
    ),
    (
        b"{ texture { finish { ambient 17 diffuse 17 } } }",
        "range @29",
    ),
    (b"{ interior { ior 1/16 } }", "-; -; 4096"),
    (b"{ interior { ior 16 } }", "-; -; 1048576"),
    (b"{ interior { ior 0.06 } }", "range @17"),
    (b"{ interior { ior 16.1 } }", "range @17"),
    (
        b"{ texture { pigment { rgb 256 } } }",
        "16777216/16777216/16777216/0/0 map 0 size 294912 mortar 32768 at 0 by 4294967296; -; 0",
    ),
    (
        b"{ texture { pigment { rgbft <0,0,0,1,1> } } }",
        "0/0/0/65536/65536 map 0 size 294912 mortar 32768 at 0 by 4294967296; -; 0",
    ),
    (b"{ texture { pigment { rgb 256.1 } } }", "range @22"),
    (b"{ texture { pigment { rgbf <0,0,0,1.1> } } }", "range @22"),
    (
        b"{ texture { pigment { rgbt <0,0,0,-0.1> } } }",
        "range @22",
    ),
    (
        b"{ texture { pigment { brick_size 1/65536 mortar 0 } } }",
        "0/0/0/0/0 map 0 size 1 mortar 0 at 0 by 4294967296; -; 0",
    ),
    (
        b"{ texture { pigment { brick_size <1,0,1> } } }",
        "range @33",
    ),
    (b"{ texture { pigment { mortar -0.1 } } }", "range @29"),
    (
        b"{ texture { pigment { gradient x color_map { [1 rgb 1][0.9999 rgb 1] } } } }",
        "range @55",
    ),
    (
        b"{ texture { pigment { rgb 300 } finish { ambient 17 } } }",
        "range @22",
    ),
    (
        b"{ texture { pigment { rgb 1 } scale 0 finish { ambient 17 } } }",
        "Singular @36",
    ),
    (
        b"{ texture { pigment { matrix <1,0,0, 0,1,0, 0,0,0.1/0, 0,0,0> } } }",
        "range @51",
    ),
];
