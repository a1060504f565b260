// What the conversions make of the curve 1 3 2 on the scope paper's family R: Expand 4 2 4, and Adjoint 1 3 4.

ghost use Rattle.definitions.specs.Conversion.{expand};

use super::*;

// A conversion of which convert alone is written.
struct Alone;

impl Conversion for Alone {
    ghost converted = { expand };

    fn convert(family: &Family, curve: &[u32], output: &mut [u32], work: &mut [u32]) {
        Expanding::convert(family, curve, output, work);
    }
}

#[test]
fn lists_just_as_long(rt: HostRuntime) {
    let family = Family {
        modulus: 7,
        a: &[1, 2],
        b: &[0, 3],
        c: &[1, 5],
    };
    let mut output = [9u32; 3];
    let mut work = [9u32; 16385];
    Expanding::convert(&family, &[1, 3, 2], &mut output, &mut work);
    assert_eq!(rt; output, [4, 2, 4]);
    assert_eq!(rt; [work[0], work[16383], work[16384]], [0, 0, 9]);
    Adjoining::convert(&family, &[1, 3, 2], &mut output, &mut work);
    assert_eq!(rt; output, [1, 3, 4]);
}

#[test]
fn longer_lists(rt: HostRuntime) {
    let family = Family {
        modulus: 7,
        a: &[1, 2],
        b: &[0, 3],
        c: &[1, 5],
    };
    let mut output = [9u32; 4];
    let mut work = [9u32; 16385];
    Expanding::convert_front(&family, &[1, 3, 2, 6], &mut output, &mut work);
    assert_eq!(rt; output, [4, 2, 4, 9]);
    Adjoining::convert_front(&family, &[1, 3, 2, 6], &mut output, &mut work);
    assert_eq!(rt; output, [1, 3, 4, 9]);
    Alone::convert_front(&family, &[1, 3, 2, 6], &mut output, &mut work);
    assert_eq!(rt; output, [4, 2, 4, 9]);
    assert_eq!(rt; [work[0], work[16383], work[16384]], [0, 0, 9]);
}
