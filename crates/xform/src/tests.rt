// Expected values are worked out by hand or with exact whole numbers outside this program, from the formulas.
ghost use Rattle.std.specs.Prelude.{IfOk};
ghost use Rattle.fix_math.specs.Matrices.{IsMatrixWithin};
ghost use Rattle.xform.specs.Transforms.{IsPlaced};

use super::*;
use fix_math::{Fix, V3};
use std::test::Fail;

type Entries = [[i64; 3]; 3];

fn narrow(raw: i32) -> Fix {
    Fix::from_known(raw as i128)
}

fn wide(raw: u64) -> Fix {
    Fix::from_known(raw.min(70_368_744_177_664) as i128)
}

fn vector(x: i32, y: i32, z: i32) -> V3 {
    V3 {
        x: narrow(x),
        y: narrow(y),
        z: narrow(z),
    }
}

fn number(raw: i64) -> Fix {
    match Fix::from_raw(raw as i128) {
        Ok(value) => value,
        Err(_) => Fix(0),
    }
}

fn numbers(raws: [i64; 12]) -> [Fix; 12] {
    let [a, b, c, d, e, f, g, h, i, j, k, l] = raws;
    [
        number(a),
        number(b),
        number(c),
        number(d),
        number(e),
        number(f),
        number(g),
        number(h),
        number(i),
        number(j),
        number(k),
        number(l),
    ]
}

fn parts_of(
    outcome: Result<Xform, XformFault>,
) -> Result<(Entries, Entries, (i64, i64, i64)), XformFault> {
    match outcome {
        Ok(x) => {
            let m = x.m;
            let n = x.n;
            Ok((m, n, (x.anchor.x.raw(), x.anchor.y.raw(), x.anchor.z.raw())))
        }
        Err(fault) => Err(fault),
    }
}

#[test]
fn steps_are_their_formulas(rt: HostRuntime) {
    let steps = [
        Step::Rotate(vector(0, 0, 5898240)),
        Step::Translate(vector(0, -131072, 0)),
    ];
    assert_eq!(rt;
        parts_of(compose(&steps)),
        Ok((
            [[0, -4294967296, 0], [4294967296, 0, 0], [0, 0, 4294967296]],
            [[0, 4294967296, 0], [-4294967296, 0, 0], [0, 0, 4294967296]],
            (0, -131072, 0)
        )),
        "turn then move"
    );
    let steps = [
        Step::Translate(vector(0, -131072, 0)),
        Step::Rotate(vector(0, 0, 5898240)),
    ];
    assert_eq!(rt;
        parts_of(compose(&steps)),
        Ok((
            [[0, -4294967296, 0], [4294967296, 0, 0], [0, 0, 4294967296]],
            [[0, 4294967296, 0], [-4294967296, 0, 0], [0, 0, 4294967296]],
            (131072, 0, 0)
        )),
        "move then turn"
    );
    let steps = [Step::Rotate(vector(1966080, 2949120, -3932160))];
    assert_eq!(rt;
        parts_of(compose(&steps)),
        Ok((
            [
                [1518500250, 3980475597, -544715601],
                [-2630119584, 544715601, -3351492199],
                [-3037000499, 1518500250, 2630119584]
            ],
            [
                [1518500250, -2630119584, -3037000499],
                [3980475597, 544715601, 1518500250],
                [-544715601, -3351492199, 2630119584]
            ],
            (0, 0, 0)
        )),
        "all three turns"
    );
    let steps = [
        Step::Translate(vector(3, -7, 5)),
        Step::Scale(vector(131072, -196608, 21845)),
    ];
    assert_eq!(rt;
        parts_of(compose(&steps)),
        Ok((
            [[8589934592, 0, 0], [0, -12884901888, 0], [0, 0, 1431633920]],
            [[2147483648, 0, 0], [0, -1431655765, 0], [0, 0, 12885098499]],
            (6, 21, 2)
        )),
        "unequal and negative factors"
    );
    let steps = [
        Step::Matrix(numbers([65536, 0, 0, 32768, 65536, 0, 0, -16384, 131072, 5, -6, 7])),
        Step::Scale(vector(-65536, 65536, 65536)),
    ];
    assert_eq!(rt;
        parts_of(compose(&steps)),
        Ok((
            [
                [-4294967296, -2147483648, 0],
                [0, 4294967296, -1073741824],
                [0, 0, 8589934592]
            ],
            [
                [-4294967296, -2147483648, -268435456],
                [0, 4294967296, 536870912],
                [0, 0, 2147483648]
            ],
            (-5, -6, 7)
        )),
        "a shear"
    );
    let steps = [
        Step::Translate(vector(1, -1, 3)),
        Step::Scale(vector(32768, 32768, 32768)),
    ];
    assert_eq!(rt;
        parts_of(compose(&steps)),
        Ok((
            [[2147483648, 0, 0], [0, 2147483648, 0], [0, 0, 2147483648]],
            [[8589934592, 0, 0], [0, 8589934592, 0], [0, 0, 8589934592]],
            (1, 0, 2)
        )),
        "half way, rounded up"
    );
    let steps = [
        Step::Scale(vector(4096, 65536, 65536)),
        Step::Scale(V3 {
            x: wide(4294967296),
            y: narrow(65536),
            z: narrow(65536),
        }),
    ];
    assert_eq!(rt;
        parts_of(compose(&steps)),
        Ok((
            [
                [17592186044416, 0, 0],
                [0, 4294967296, 0],
                [0, 0, 4294967296]
            ],
            [[1048576, 0, 0], [0, 4294967296, 0], [0, 0, 4294967296]],
            (0, 0, 0)
        )),
        "an entry at its limit"
    );
    let steps = [Step::Scale(vector(16, 65536, 65536))];
    assert_eq!(rt;
        parts_of(compose(&steps)),
        Ok((
            [[1048576, 0, 0], [0, 4294967296, 0], [0, 0, 4294967296]],
            [
                [17592186044416, 0, 0],
                [0, 4294967296, 0],
                [0, 0, 4294967296]
            ],
            (0, 0, 0)
        )),
        "an inverse at its limit"
    );
    let steps = [Step::Translate(vector(268435456, -268435456, 0))];
    assert_eq!(rt;
        parts_of(compose(&steps)),
        Ok((
            [[4294967296, 0, 0], [0, 4294967296, 0], [0, 0, 4294967296]],
            [[4294967296, 0, 0], [0, 4294967296, 0], [0, 0, 4294967296]],
            (268435456, -268435456, 0)
        )),
        "an anchor at the edge"
    );
    let steps = [Step::Matrix(numbers([0, 65536, 0, 65536, 0, 0, 0, 0, 32768, 1, 2, 3]))];
    assert_eq!(rt;
        parts_of(compose(&steps)),
        Ok((
            [[0, 4294967296, 0], [4294967296, 0, 0], [0, 0, 2147483648]],
            [[0, 4294967296, 0], [4294967296, 0, 0], [0, 0, 8589934592]],
            (1, 2, 3)
        )),
        "a negative determinant"
    );
}

#[test]
fn refusals_come_in_their_order(rt: HostRuntime) {
    let steps = [Step::Scale(vector(65536, 0, 65536))];
    assert_eq!(rt;
        parts_of(compose(&steps)),
        Err(XformFault::Singular),
        "a factor of 0"
    );
    let steps = [Step::Matrix(numbers([
        65536, 131072, 0, 131072, 262144, 0, 0, 0, 65536, 0, 0, 0,
    ]))];
    assert_eq!(rt;
        parts_of(compose(&steps)),
        Err(XformFault::Singular),
        "a determinant of 0"
    );
    let steps = [
        Step::Scale(vector(6001, 65536, 65536)),
        Step::Scale(V3 {
            x: wide(2931542417),
            y: narrow(65536),
            z: narrow(65536),
        }),
    ];
    assert_eq!(rt;
        parts_of(compose(&steps)),
        Err(XformFault::EntryRange),
        "an entry one past it"
    );
    let steps = [Step::Scale(vector(65536, 15, 65536))];
    assert_eq!(rt;
        parts_of(compose(&steps)),
        Err(XformFault::EntryRange),
        "an inverse past it"
    );
    let steps = [
        Step::Translate(vector(268435456, 0, 0)),
        Step::Translate(vector(1, 0, 0)),
    ];
    assert_eq!(rt;
        parts_of(compose(&steps)),
        Err(XformFault::AnchorRange),
        "an anchor one past it"
    );
    let steps = [Step::Translate(vector(0, 0, -268435457))];
    assert_eq!(rt;
        parts_of(compose(&steps)),
        Err(XformFault::AnchorRange),
        "an anchor one past it below"
    );
    let steps = [Step::Scale(V3 {
        x: narrow(0),
        y: wide(70368744177664),
        z: narrow(65536),
    })];
    assert_eq!(rt;
        parts_of(compose(&steps)),
        Err(XformFault::Singular),
        "a factor of 0 before a great entry"
    );
    let steps = [
        Step::Translate(vector(268435456, 0, 0)),
        Step::Scale(V3 {
            x: wide(70368744177664),
            y: narrow(65536),
            z: narrow(65536),
        }),
    ];
    assert_eq!(rt;
        parts_of(compose(&steps)),
        Err(XformFault::EntryRange),
        "a great entry before a far anchor"
    );
    let steps = [
        Step::Translate(vector(268435456, 0, 0)),
        Step::Scale(vector(131072, 65536, 65536)),
    ];
    assert_eq!(rt;
        parts_of(compose(&steps)),
        Err(XformFault::AnchorRange),
        "a far anchor"
    );
    let steps = [Step::Matrix(numbers([274877906945, 0, 0, 0, 0, 0, 0, 0, 0, 0, 0, 0]))];
    assert_eq!(rt;
        parts_of(compose(&steps)),
        Err(XformFault::EntryRange),
        "a great number before a determinant of 0"
    );
    let steps = [Step::Matrix(numbers([274877906944, 0, 0, 0, 65536, 0, 0, 0, 65536, 0, 0, 0]))];
    assert_eq!(rt;
        parts_of(compose(&steps)),
        Err(XformFault::EntryRange),
        "numbers at their limit"
    );
    let steps = [Step::Matrix(numbers([0, 0, 0, 0, 0, 0, 0, 0, 0, 268435457, 0, 0]))];
    assert_eq!(rt;
        parts_of(compose(&steps)),
        Err(XformFault::Singular),
        "a determinant of 0 before a far anchor"
    );
    let steps = [Step::Matrix(numbers([
        1048576, 1048575, 0, 1048577, 1048576, 0, 0, 0, 1, 0, 0, 0,
    ]))];
    assert_eq!(rt;
        parts_of(compose(&steps)),
        Err(XformFault::EntryRange),
        "a great inverse"
    );
}

fn quarter_turn() -> Step {
    Step::Rotate(vector(0, 0, 5898240))
}

fn corner() -> V3 {
    vector(65536, 0, 262144)
}

fn fall() -> Step {
    Step::Translate(vector(0, -131072, 0))
}

#[test]
fn points_move_with_their_object(rt: HostRuntime) -> Result<(), Fail> {
    let turned = compose(&[quarter_turn(), fall()]).ok().ok_or("a step")?;
    assert_eq!(rt; point(&turned, corner()), [0, -65536, 262144]);
    let fallen = compose(&[fall(), quarter_turn()]).ok().ok_or("a step")?;
    assert_eq!(rt; point(&fallen, corner()), [131072, 65536, 262144]);
    assert_eq!(rt; point(&start(), corner()), [65536, 0, 262144]);
    assert_eq!(rt; direction(&turned, corner()), [0, 65536, 262144]);
    assert_eq!(rt; direction(&start(), corner()), [65536, 0, 262144]);
    assert_eq!(rt;
        parts_of(then(&start(), &quarter_turn())),
        Ok((
            [[0, -4294967296, 0], [4294967296, 0, 0], [0, 0, 4294967296]],
            [[0, 4294967296, 0], [-4294967296, 0, 0], [0, 0, 4294967296]],
            (0, 0, 0)
        ))
    );
    Ok(())
}

type Place = ((i64, i64, i64), u32, Entries, Entries, [[i128; 3]; 3]);

// The place's parts. No fault stands for steps that are refused.
fn place_of(
    x: Result<Xform, XformFault>,
    frame: &Frame,
    c: V3,
    extent: u32,
) -> Result<Place, Option<XformFault>>
    requires placed { IfOk x IsPlaced }
    requires small { IsMatrixWithin 65537 frame.now }
{
    let x = match x {
        Ok(x) => x,
        Err(_) => return Err(None),
    };
    match spot(&x, frame, c, extent.min(1 << 30) as i64) {
        Ok(s) => {
            let anchor = (s.anchor.x.raw(), s.anchor.y.raw(), s.anchor.z.raw());
            let n = s.n;
            let m = s.m;
            let residual = s.residual;
            Ok((anchor, s.e, n, m, residual))
        }
        Err(fault) => Err(Some(fault)),
    }
}

#[test]
fn places_have_their_exact_residual(rt: HostRuntime) {
    let x = Ok(start());
    let frame = identity_frame();
    assert_eq!(rt;
        place_of(x, &frame, vector(0, 0, 0), 0),
        Ok((
            (0, 0, 0),
            32,
            [[4294967296, 0, 0], [0, 4294967296, 0], [0, 0, 4294967296]],
            [[4294967296, 0, 0], [0, 4294967296, 0], [0, 0, 4294967296]],
            [[0, 0, 0], [0, 0, 0], [0, 0, 0]]
        ))
    );
    let x = Ok(start());
    let frame = identity_frame();
    assert_eq!(rt;
        place_of(x, &frame, vector(268435456, -268435456, 0), 65536),
        Ok((
            (268435456, -268435456, 0),
            28,
            [[268435456, 0, 0], [0, 268435456, 0], [0, 0, 268435456]],
            [[4294967296, 0, 0], [0, 4294967296, 0], [0, 0, 4294967296]],
            [[0, 0, 0], [0, 0, 0], [0, 0, 0]]
        ))
    );
    let x = Ok(start());
    let frame = identity_frame();
    assert_eq!(rt;
        place_of(x, &frame, vector(268435456, 1, 0), 1073741824),
        Ok((
            (268435456, 1, 0),
            14,
            [[16384, 0, 0], [0, 16384, 0], [0, 0, 16384]],
            [[4294967296, 0, 0], [0, 4294967296, 0], [0, 0, 4294967296]],
            [[0, 0, 0], [0, 0, 0], [0, 0, 0]]
        ))
    );
    let x = compose(&[Step::Translate(vector(1, 0, 0))]);
    let frame = identity_frame();
    assert_eq!(rt;
        place_of(x, &frame, vector(268435456, 0, 0), 1),
        Err(Some(XformFault::AnchorRange))
    );
    let x = compose(&[
        Step::Rotate(vector(1966080, 2949120, -3932160)),
        Step::Scale(vector(131072, -196608, 21845)),
        Step::Matrix(numbers([65536, 0, 0, 32768, 65536, 0, 0, -16384, 131072, 5, -6, 7])),
    ]);
    let frame = axis_frame(vector(1, 2, 3));
    assert_eq!(rt;
        place_of(x, &frame, vector(65536, -131072, 196608), 300000),
        Ok((
            (68789, 628209, 18484),
            26,
            [
                [-28235126, 26160848, 7851545],
                [7767697, 5855429, -86843581],
                [16381019, 7949802, 50420004]
            ],
            [
                [-3759726117, 4793442445, 8841950611],
                [6920642984, 5921193982, 9121087006],
                [130312516, -2490960696, 1405860122]
            ],
            [
                [-133942825772, -1795085045711, -11819137926134],
                [-1513622082584, -1479694279778, -5293952148762],
                [-1003135750190, 247964049172, -198377298340]
            ]
        ))
    );
}

#[test]
fn frames_of_axes(rt: HostRuntime) {
    let table: [(i32, i32, i32, Entries); 8] = [
        (0, 65536, 0, [[0, 0, 65536], [65536, 0, 0], [0, 65536, 0]]),
        (65536, 0, 0, [[0, 0, -65536], [0, 65536, 0], [65536, 0, 0]]),
        (0, 0, 65536, [[0, -65536, 0], [65536, 0, 0], [0, 0, 65536]]),
        (0, 0, 0, [[0, -65536, 0], [65536, 0, 0], [0, 0, 65536]]),
        (
            65536,
            65536,
            65536,
            [
                [0, -46341, 46341],
                [53510, -26755, -26755],
                [37837, 37837, 37837],
            ],
        ),
        (
            1,
            2,
            3,
            [
                [0, -54529, 36353],
                [63152, -9716, -14573],
                [17515, 35031, 52546],
            ],
        ),
        (
            -5,
            5,
            -5,
            [
                [0, 46341, 46341],
                [53510, 26755, -26755],
                [-37837, 37837, -37837],
            ],
        ),
        (-65536, 0, 0, [[0, 0, 65536], [0, 65536, 0], [-65536, 0, 0]]),
    ];
    for (x, y, z, expected) in table {
        assert_eq!(rt; axis_frame(vector(x, y, z)), expected, "of {x} {y} {z}");
    }
}
