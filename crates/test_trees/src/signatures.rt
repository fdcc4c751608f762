//! Types, and the signatures of instances.

ghost use Rattle.std.specs.Prelude.{◌<◌, ◌^◌};
ghost use Rattle.silq_types.specs.Types.{shape_bits};

use silq_tree::{FunId, Mark};
use silq_types::{
    InstanceKey, Known, ParamList, ResultList, Scalar, Shape, Signature, StaticList, Ty,
};
use std::alloc::{AllocError, Global};
use std::test::Fail;

// An instance with one static value.
fn instance(alloc: Global, number: u32, value: i64) -> Result<InstanceKey, AllocError> {
    let mut statics = StaticList::new(alloc);
    statics.push(value)?;
    let fun = FunId { number };
    Ok(InstanceKey { fun, statics })
}

fn plain(alloc: Global, height: u32) -> Signature {
    Signature {
        params: ParamList::new(alloc),
        results: ResultList::new(alloc),
        mark: Mark::Plain,
        height,
    }
}

// Adds a signature of this height where the instance has none.
fn add(known: &mut Known, key: InstanceKey, signature: Signature) -> Result<(), AllocError> {
    if known.get(&key).is_none() {
        known.add(key, signature)?;
    }
    Ok(())
}

fn height(
    alloc: Global,
    known: &Known,
    number: u32,
    value: i64,
) -> Result<Option<u32>, AllocError> {
    let key = instance(alloc, number, value)?;
    match known.get(&key) {
        Some(signature) => Ok(Some(signature.height)),
        None => Ok(None),
    }
}

#[test]
fn instances_are_told_apart(rt: HostRuntime) -> Result<(), Fail> {
    let alloc = rt.alloc();
    let mut known = Known::new(alloc);
    for (number, value, height) in [(1, 4, 2), (1, -5, 3), (0, 4, 1), (1, 4, 9)] {
        add(
            &mut known,
            instance(alloc, number, value)?,
            plain(alloc, height),
        )?;
    }
    let heights = [
        height(alloc, &known, 1, 4)?,
        height(alloc, &known, 1, -5)?,
        height(alloc, &known, 0, -5)?,
    ];
    assert!(rt; known.len() == 3 && heights == [Some(2), Some(3), None]);
    Ok(())
}

#[test]
fn lists_grow(rt: HostRuntime) -> Result<(), Fail> {
    let mut statics = StaticList::new(rt.alloc());
    statics.push(4)?;
    statics.push(7)?;
    assert!(rt; statics.len() == 2 && statics.as_slice() == [4, 7].as_slice());
    assert!(rt; statics.get(1) == Some(&7) && statics.get(2).is_none());
    Ok(())
}

fn bits(shape: Shape) -> u64
    requires { shape_bits shape < 2 ^ 64 }
{
    let classical = false;
    Ty { classical, shape }.bits()
}

#[test]
fn types_have_bits(rt: HostRuntime) {
    let found = [
        bits(Shape::Bit),
        bits(Shape::UInt(3)),
        bits(Shape::Int(64)),
        bits(Shape::Array(Scalar::Bit, 7)),
        bits(Shape::Array(Scalar::Int(3), 5)),
    ];
    assert!(rt; found == [1, 3, 64, 7, 15]);
}
