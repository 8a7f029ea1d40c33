use nest_input::{InputRefused, read_nest};
use nest_partition::{Split, partition};
use nest_syntax::Expr;
use std::alloc::Global;
use std::process::Abort;
use std::test::Fail;

/// `x` is given a word of a written array, and `y` one of two values, by what `x` is.
const NEST: &str = "long a[4];
for (long t = 0; t < 1; t++) {
  for (long i = 0; i < 4; i++) {
    long x = a[i];
    long y = i;
    if (x > 0) { y = 1; }
    long z = i + 2;
    a[0] = y + z;
  }
}
";

fn split_of(rt: &impl Abort, alloc: Global, nest: &str) -> Result<Split, InputRefused> {
    assert!(rt; nest.len() <= 1000);
    let checked = read_nest(alloc, nest.as_bytes())?;
    Ok(partition(alloc, &checked)?)
}

/// Whether a name is a data local of the body, and whether it is a slice expression there.
fn told(split: &Split, name: u32) -> (bool, bool) {
    (
        split.is_data(0, name),
        split.is_slice(0, &Expr::Scalar(name)),
    )
}

// Names are numbered as they first stand in the text: `a`, `t`, `i`, `x`, `y`, `z`.
#[test]
fn the_data_locals_of_a_body(rt: HostRuntime) -> Result<(), Fail> {
    let split = split_of(&rt, rt.alloc(), NEST)?;
    for (name, is_data) in [(1, false), (2, false), (3, true), (4, true), (5, false)] {
        assert_eq!(rt; told(&split, name), (is_data, !is_data), "of {name}");
    }
    Ok(())
}
