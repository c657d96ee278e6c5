// Objects with what they hold, or their first fault, by hand.
pub static LEAVES: [(&[u8], &str); 23] = [
    (b"sphere { 0, 1 }", " 0; 0;; 0;; all"),
    (
        b"sphere { 0, 1 texture { pigment { rgb 1 } } }",
        " 0; 0t0;; 0 0; p1; all",
    ),
    (
        b"sphere { 0, 1 pigment { rgb 1 } }",
        " 0; 0t0;; 0 0; p1; all",
    ),
    (b"sphere { 0, 1 finish { } }", " 0; 0t0;; 0; f; all"),
    (b"sphere { 0, 1 texture { } }", " 0; 0;; 0;; all"),
    (
        b"sphere { 0, 1 interior { ior 2 } }",
        " 0; 0r131072;; 0;; all",
    ),
    (
        b"sphere { 0, 1 material { texture { finish { } } interior { } } }",
        " 0; 0t0r65536;; 0; f; all",
    ),
    (
        b"sphere { 0, 1 translate x translate x }",
        " 0; 0;; 131072;; all",
    ),
    (
        b"sphere { 0, 1 transform { translate x scale 2 } }",
        " 0; 0;; 131072;; all",
    ),
    (
        b"sphere { 0, 1 transform transform { translate x } }",
        " 0; 0;; 65536;; all",
    ),
    (
        b"sphere { 0, 1 matrix <1,0,0,0,1,0,0,0,1,3,0,0> }",
        " 0; 0;; 196608;; all",
    ),
    (b"sphere { 0, 1 inverse }", " 0; 0in;; 0;; all"),
    (b"sphere { 0, 1 inverse inverse }", " 0; 0;; 0;; all"),
    (
        b"sphere { 0, 1 inverse hollow inverse inverse }",
        " 0; 0in;; 0;; all",
    ),
    (b"sphere { 0, 1 no_shadow }", " 0; 0;; 0;; shadowless all"),
    (b"sphere { 0, 1 hollow no hollow }", " 0; 0;; 0;; all"),
    (
        b"sphere { 0, 1 bounded_by { sphere { 5 } box } }",
        " 0; 0;; 0;; all",
    ),
    (
        b"sphere { 0, 1 translate x pigment { } }",
        " 0; 0t0;; 65536 0; p1; all",
    ),
    (
        b"sphere { 0, 1 pigment { } translate x }",
        " 0; 0t0;; 65536 65536; p1; all",
    ),
    (
        b"sphere { 0, 1 pigment { translate x } translate x }",
        " 0; 0t0;; 65536 131072; p1; all",
    ),
    (
        b"sphere { 0, 1 pigment { } translate x pigment { } translate x }",
        " 0; 0t0;; 131072 65536; p1; all",
    ),
    (
        b"sphere { 0, 1 texture { pigment { } translate x finish { } } scale 3 }",
        " 0; 0t0;; 0 196608; p1f; all",
    ),
    (
        b"cylinder { 0, x, 1 open translate x }",
        " 0; 0;; 65536;; all",
    ),
];

pub static GROUPS: [(&[u8], &str); 16] = [
    (
        b"union { sphere { 0, 1 } box { 0, 1 } }",
        " (union 0 1); 0 1;; 0 0;; all",
    ),
    (
        b"union { sphere { 0, 1 pigment { rgb 1 } } sphere { 0, 1 } pigment { } translate x }",
        " (union 0 1); 0t0 2t1;; 65536 65536 65536 65536; p1 p3; all",
    ),
    (
        b"union { sphere { 0, 1 finish { } } sphere { 0, 1 } pigment { } }",
        " (union 0 1); 0t0 1t1;; 0 0 0; f p2; all",
    ),
    (
        b"union { union { sphere { 0, 1 } pigment { } } sphere { 0, 1 } finish { } }",
        " (union (union 0) 1); 0t0 2t1;; 0 0 0; p1 f; all",
    ),
    (
        b"union { sphere { 0, 1 interior { ior 2 } } sphere { 0, 1 } interior { } }",
        " (union 0 1); 0r131072 1r65536;; 0 0;; all",
    ),
    (
        b"union { sphere { 0, 1 interior { ior 2 } } pigment { } }",
        " (union 0); 0t0r131072;; 0 0; p1; all",
    ),
    (
        b"merge { sphere { 0, 1 } translate x pigment { } scale 2 }",
        " (merge 0); 0t0;; 131072 0; p1; all",
    ),
    (
        b"union { sphere { 0, 1 translate x } sphere { 0, 1 pigment { translate 3*x } } translate x }",
        " (union 0 1); 0 1t0;; 131072 65536 262144; p2; all",
    ),
    (
        b"object { sphere { 0, 1 pigment { } } finish { } }",
        " 0; 0t0;; 0 0; p1 f; all",
    ),
    (
        b"object { sphere { 0, 1 translate x } translate x }",
        " 0; 0;; 131072;; all",
    ),
    (
        b"union { sphere { 0, 1 no_shadow } }",
        " (union 0); 0;; 0;; all",
    ),
    (
        b"union { sphere { 0, 1 } no_shadow }",
        " (union 0); 0;; 0;; shadowless all",
    ),
    (
        b"object { sphere { 0, 1 no_shadow } }",
        " 0; 0;; 0;; shadowless all",
    ),
    (
        b"object { object { sphere { 0, 1 } no_shadow } }",
        " 0; 0;; 0;; shadowless all",
    ),
    (
        b"object { union { sphere { 0, 1 no_shadow } } }",
        " (union 0); 0;; 0;; all",
    ),
    (
        b"union { object { sphere { 0, 1 no_shadow } } }",
        " (union 0); 0;; 0;; all",
    ),
];

pub static INVERSE: [(&[u8], &str); 15] = [
    (
        b"difference { sphere { 0, 1 } sphere { 0, 1 } sphere { 0, 1 } }",
        " (first 0 1 2); 0 1n 2n;; 0 0 0;; all",
    ),
    (
        b"difference { sphere { 0, 1 } difference { sphere { 0, 1 } sphere { 0, 1 } } }",
        " (first 0 (first 1 2)); 0 1n 2;; 0 0 0;; all",
    ),
    (
        b"difference { union { sphere { 0, 1 } sphere { 0, 1 } } sphere { 0, 1 } }",
        " (first (union 0 1) 2); 0 1 2n;; 0 0 0;; all",
    ),
    (
        b"difference { sphere { 0, 1 inverse } sphere { 0, 1 inverse } }",
        " (first 0 1); 0in 1i;; 0 0;; all",
    ),
    (
        b"difference { sphere { 0, 1 } sphere { 0, 1 } inverse }",
        " !(first 0 1); 0n 1;; 0 0;; all",
    ),
    (
        b"intersection { sphere { 0, 1 } sphere { 0, 1 } inverse }",
        " !(common 0 1); 0n 1n;; 0 0;; all",
    ),
    (
        b"union { union { sphere { 0, 1 } inverse } inverse }",
        " !(union !(union 0)); 0;; 0;; all",
    ),
    (
        b"merge { sphere { 0, 1 } inverse inverse }",
        " (merge 0); 0;; 0;; all",
    ),
    (b"object { sphere { 0, 1 } }", " 0; 0;; 0;; all"),
    (b"object { sphere { 0, 1 } inverse }", " 0; 0in;; 0;; all"),
    (
        b"object { sphere { 0, 1 inverse } inverse }",
        " 0; 0;; 0;; all",
    ),
    (
        b"object { union { sphere { 0, 1 } } inverse }",
        " !(union 0); 0n;; 0;; all",
    ),
    (
        b"object { object { union { sphere { 0, 1 } inverse } inverse } inverse }",
        " !(union 0); 0n;; 0;; all",
    ),
    (
        b"difference { sphere { 0, 1 } object { sphere { 0, 1 } inverse } }",
        " (first 0 1); 0 1i;; 0 0;; all",
    ),
    (
        b"union { sphere { 0, 1 inverse } sphere { 0, 1 } inverse }",
        " !(union 0 1); 0i 1n;; 0 0;; all",
    ),
];

pub static SHEETS: [(&[u8], &str); 14] = [
    (b"triangle { 0, x, y }", ";; 0; 0;; all"),
    (b"smooth_triangle { 0, z, x, z, y, z }", ";; 0; 0;; all"),
    (
        b"triangle { 0, x, y pigment { } translate x no_shadow }",
        ";; 0t0; 65536 65536; p1; shadowless all",
    ),
    (
        b"mesh { triangle { 0, x, y } smooth_triangle { 0, z, x, z, y, z } }",
        ";; 0 0; 0;; all",
    ),
    (
        b"mesh { triangle { 0, x, y texture { pigment { } } } triangle { 0, x, y } pigment { } translate x }",
        ";; 0t0 0t1; 65536 65536 65536; p1 p2; all",
    ),
    (
        b"mesh { triangle { 0, x, y texture { } } finish { } }",
        ";; 0t0; 0; f; all",
    ),
    (
        b"mesh { triangle { 0, x, y } hierarchy off hierarchy interior { ior 2 } no_shadow }",
        ";; 0r131072; 0;; shadowless all",
    ),
    (
        b"union { triangle { 0, x, y } sphere { 0, 1 } }",
        " (union 0); 1; 0; 0 0;; all",
    ),
    (b"union { triangle { 0, x, y } }", ";; 0; 0;; all"),
    (
        b"union { union { triangle { 0, x, y } } mesh { triangle { 0, x, y } } object { triangle { 0, x, y } } translate x }",
        ";; 0 1 2; 65536 65536 65536;; all",
    ),
    (
        b"object { mesh { triangle { 0, x, y } } translate x }",
        ";; 0; 65536;; all",
    ),
    (
        b"union { sphere { 0, 1 inverse } triangle { 0, x, y } }",
        " (union 0); 0in; 1; 0 0;; all",
    ),
    (
        b"union { sphere { 0, 1 } triangle { 0, x, y } pigment { } }",
        " (union 0); 0t0; 1t0; 0 0 0; p2; all",
    ),
    (
        b"union { mesh { triangle { 0, x, y } finish { } } triangle { 0, x, y } pigment { } }",
        ";; 0t0 1t1; 0 0 0; f p2; all",
    ),
];

pub static SPHERE_FAULTS: [(&[u8], &str); 21] = [
    (b"sphere { 0, 1 foo }", "out of profile @14"),
    (b"sphere foo {", "out of profile @7"),
    (b"sphere 5", "expected OpenBrace @7"),
    (b"sphere", "expected OpenBrace @6"),
    (b"sphere { 0 pigment", "out of profile @11"),
    (b"sphere { 0, 1 open }", "out of profile @14"),
    (b"cone { 0, 1, x, 1 open open }", "out of profile @23"),
    (b"sphere { 0, 1 5 }", "expected CloseBrace @14"),
    (b"sphere { 0, 1", "expected CloseBrace @13"),
    (b"sphere { 0, -1 foo }", "range @12"),
    (b"sphere { <5000,0,0>, foo }", "range @9"),
    (b"sphere { 0, 1 scale 0 foo }", "Singular @20"),
    (b"sphere { 0, 1 hierarchy }", "out of profile @14"),
    (b"sphere { 0, 1 inside_vector }", "out of profile @14"),
    (b"sphere { 0, 1 texture_map { } }", "out of profile @14"),
    (b"sphere { 0, 1 bounded_by 5 }", "expected OpenBrace @25"),
    (b"sphere { 0, 1 texture 5 }", "expected OpenBrace @22"),
    (b"sphere { 0, 1 hollow 5 }", "expected CloseBrace @21"),
    (b"sphere { 0, 1 finish { ambient 17 } foo }", "range @31"),
    (b"sphere { 0, 1 translate \"a\" }", "expected Parameter @24"),
    (b"sphere { 0, 1 transform { foo }", "out of profile @26"),
];

pub static GROUP_FAULTS: [(&[u8], &str); 27] = [
    (b"union { }", "expected Part @8"),
    (b"union { texture { } }", "expected Part @8"),
    (b"union { foo }", "out of profile @8"),
    (b"union { hierarchy", "out of profile @8"),
    (b"union { open", "out of profile @8"),
    (b"union { inverse }", "expected Part @8"),
    (b"union { 5", "expected Part @8"),
    (b"union {", "expected Part @7"),
    (b"difference { hollow", "expected Part @13"),
    (b"object { }", "expected Item @9"),
    (b"object { texture { } }", "expected Item @9"),
    (b"object { foo", "out of profile @9"),
    (b"object { open", "out of profile @9"),
    (b"object { 5", "expected Item @9"),
    (
        b"object { sphere { 0, 1 } sphere { 0, 1 } }",
        "out of profile @25",
    ),
    (
        b"union { sphere { 0, 1 } texture { } sphere { 0, 1 } }",
        "out of profile @36",
    ),
    (
        b"union { sphere { 0, 1 } , sphere { 0, 1 } }",
        "expected CloseBrace @24",
    ),
    (b"union { sphere { 0, 1 } foo { } }", "out of profile @24"),
    (b"union foo", "out of profile @6"),
    (b"object 5", "expected OpenBrace @7"),
    (b"union { sphere { 0, 1 foo } bar }", "out of profile @22"),
    (b"union { sphere { 0, 1 scale 0 } scale 0 }", "Singular @28"),
    (
        b"union { sphere { 0, 1 translate 4096*x } sphere { 0, 1 } translate x }",
        "AnchorRange @67",
    ),
    (
        b"union { sphere { 0, 1 translate 4096*x } sphere { 0, 1 scale 4096 } scale 2 }",
        "AnchorRange @74",
    ),
    (
        b"union { sphere { 0, 1 scale 4096 } sphere { 0, 1 translate 4096*x } scale 2 }",
        "EntryRange @74",
    ),
    (
        b"sphere { 0, 1 pigment { scale 4096 } translate 4096*x scale 2 }",
        "AnchorRange @60",
    ),
    (
        b"union { sphere { 0, 1 pigment { scale 4096 } } scale 2 }",
        "EntryRange @53",
    ),
];

pub static SHEET_FAULTS: [(&[u8], &str); 27] = [
    (b"mesh { }", "expected Part @7"),
    (b"mesh { hierarchy", "expected Part @7"),
    (b"mesh { inverse", "out of profile @7"),
    (b"mesh { sphere", "out of profile @7"),
    (b"mesh { texture", "expected Part @7"),
    (
        b"difference { box { 0, 1 } triangle { 0, x, y } }",
        "out of profile @26",
    ),
    (b"merge { triangle { 0, x, y } }", "out of profile @8"),
    (
        b"intersection { mesh { triangle { 0, x, y } } }",
        "out of profile @15",
    ),
    (
        b"union { merge { triangle { 0, x, y } } }",
        "out of profile @16",
    ),
    (
        b"object { intersection { sphere { 0, 1 } smooth_triangle",
        "out of profile @40",
    ),
    (
        b"merge { union { triangle { 0, x, y } } }",
        "out of profile @16",
    ),
    (
        b"difference { object { triangle { 0, x, y } } }",
        "out of profile @22",
    ),
    (b"triangle { 0, x, y inverse }", "out of profile @19"),
    (
        b"mesh { triangle { 0, x, y } inverse }",
        "out of profile @28",
    ),
    (
        b"union { triangle { 0, x, y } inverse }",
        "out of profile @29",
    ),
    (
        b"object { union { triangle { 0, x, y } } inverse }",
        "out of profile @40",
    ),
    (
        b"mesh { triangle { 0, x, y pigment { } } }",
        "out of profile @26",
    ),
    (
        b"mesh { triangle { 0, x, y texture { } texture { } } }",
        "out of profile @38",
    ),
    (
        b"mesh { triangle { 0, x, y translate x } }",
        "out of profile @26",
    ),
    (
        b"mesh { triangle { 0, x, y } texture { } triangle { 0, x, y } }",
        "out of profile @40",
    ),
    (b"mesh { triangle { 0, x, y 5", "expected CloseBrace @26"),
    (b"smooth_triangle { 0, 0, x, z, y, z }", "range @21"),
    (b"triangle { 0, x, <0,0,5000> }", "range @17"),
    (b"triangle { 0, x }", "expected Parameter @16"),
    (b"mesh { triangle { 0, x, y } open }", "out of profile @28"),
    (b"mesh { triangle { 0, x, y } scale 0 }", "Singular @34"),
    (b"triangle { 0, x, y hierarchy }", "out of profile @19"),
];
