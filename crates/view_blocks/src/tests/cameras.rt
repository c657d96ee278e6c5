// Cameras, and their first faults. Numbers were worked out by a program of whole numbers.
pub static FOUND: [(&[u8], &str); 19] = [
    (b"camera { }", "0/0/0 0/0/65536 87163/0/0 0/65536/0 0"),
    (
        b"camera { orthographic location <0,4,0> direction -y right 4*x up 4*z }",
        "0/262144/0 0/-65536/0 262144/0/0 0/0/262144 1",
    ),
    (
        b"camera { orthographic perspective }",
        "0/0/0 0/0/65536 87163/0/0 0/65536/0 0",
    ),
    (
        b"camera { angle 90 }",
        "0/0/0 0/0/43582 87163/0/0 0/65536/0 0",
    ),
    (
        b"camera { angle 60 right 2*x direction <0,3,4> }",
        "0/0/0 0/68108/90810 131072/0/0 0/65536/0 0",
    ),
    (
        b"camera { angle 179.99999 }",
        "0/0/0 0/0/0 87163/0/0 0/65536/0 0",
    ),
    (
        b"camera { angle 1/32768 scale <1/4096,1/4096,1/4096> }",
        "0/0/0 0/0/39946254 21/0/0 0/16/0 0",
    ),
    (
        b"camera { location <0,0,-5> look_at 0 }",
        "0/0/-327680 0/0/65536 87163/0/0 0/65536/0 0",
    ),
    (
        b"camera { look_at <3,0,4> location 0 }",
        "0/0/0 39322/0/52429 69731/0/-52298 0/65536/0 0",
    ),
    (
        b"camera { right -x look_at <3,0,4> }",
        "0/0/0 39322/0/52429 -52429/0/39322 0/65536/0 0",
    ),
    (
        b"camera { look_at <1,1,1> angle 90 }",
        "0/0/0 25162/25162/25162 61634/0/-61634 -26755/53510/-26755 0",
    ),
    (
        b"camera { angle 90 look_at <1,1,1> }",
        "0/0/0 25162/25162/25162 61634/0/-61634 -26755/53510/-26755 0",
    ),
    (
        b"camera { look_at z sky x }",
        "0/0/0 0/0/65536 0/-87163/0 65536/0/0 0",
    ),
    (
        b"camera { translate z look_at <0,0,-2> }",
        "0/0/65536 0/0/-65536 -87163/0/0 0/65536/0 0",
    ),
    (
        b"camera { location x rotate 90*y scale 2 }",
        "0/0/-131072 131072/0/0 0/0/-174326 0/131072/0 0",
    ),
    (
        b"camera { camera { angle 90 translate x } angle 60 translate x }",
        "131072/0/0 0/0/75485 87163/0/0 0/65536/0 0",
    ),
    (
        b"camera { direction 0 angle 90 }",
        "0/0/0 0/0/43582 87163/0/0 0/65536/0 0",
    ),
    (
        b"camera { right 0 up 0 direction 0 }",
        "0/0/0 0/0/0 0/0/0 0/0/0 0",
    ),
    (
        b"camera { location 4096 scale 256 }",
        "68719476736/68719476736/68719476736 0/0/16777216 22313728/0/0 0/16777216/0 0",
    ),
];

pub static FAULTS: [(&[u8], &str); 28] = [
    (b"camera x", "no x @7"),
    (b"camera {", "expected CloseBrace @8"),
    (b"camera { 5 }", "expected CloseBrace @9"),
    (b"camera { fisheye }", "no fisheye @9"),
    (b"camera { angle 0 }", "range @15"),
    (b"camera { angle 180 }", "range @15"),
    (b"camera { angle -1 }", "range @15"),
    (b"camera { angle z }", "expected Parameter @15"),
    (b"camera { location 4096.1 }", "range @18"),
    (b"camera { direction <0,-4096.1,0> }", "range @19"),
    (b"camera { right <0,0,4096.1> }", "range @15"),
    (b"camera { up 4097 }", "range @12"),
    (b"camera { sky 4097 }", "range @13"),
    (b"camera { look_at 4097 }", "range @17"),
    (b"camera { up \"y\" }", "expected Parameter @12"),
    (b"camera { rotate <0,0,1> scale <1,0,1> }", "Singular @30"),
    (b"camera { translate 4097 }", "AnchorRange @19"),
    (b"camera { look_at 0 }", "range @17"),
    (b"camera { look_at 0 angle 180 }", "range @25"),
    (b"camera { look_at <0,5,0> }", "range @17"),
    (b"camera { look_at x sky 0 }", "range @17"),
    (
        b"camera { location <1,2,3> look_at <1,2,3> fisheye }",
        "no fisheye @42",
    ),
    (b"camera { location 4096 scale 256.1 }", "range @0"),
    (b"camera { scale 4096 angle 1/32768 }", "range @0"),
    (
        b"camera { location 4096 look_at 4096 scale 257 }",
        "range @31",
    ),
    (b"camera { camera { look_at 0 } }", "range @26"),
    (b"camera { camera { location 4096 } scale 257 }", "range @0"),
    (b"camera { camera { } camera { } }", "no camera @20"),
];
