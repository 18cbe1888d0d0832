// Values beyond the four places that need no allocation.

use std::alloc::Global;
use std::test::Fail;
use wasm_num::{NoMemory, Value, Values};

fn six(alloc: Global) -> Result<Values, NoMemory> {
    let mut values = Values::new(alloc);
    for number in 0..3_u32 {
        values.push(Value::I32(number))?;
        values.push(Value::I64(u64::MAX))?;
    }
    Ok(values)
}

// Whether the six values stand in the order in which they came, and none past the end.
fn are_six(values: &Values) -> bool {
    values.len() == 6
        && values.get(0) == Some(Value::I32(0))
        && values.get(3) == Some(Value::I64(u64::MAX))
        && values.get(4) == Some(Value::I32(2))
        && values.get(6).is_none()
}

#[test]
fn keeps_more_than_four(rt: HostRuntime) -> Result<(), Fail> {
    let values = six(rt.alloc())?;
    assert!(rt; are_six(&values));
    Ok(())
}

// Whether four values are taken.
fn takes_four(values: &mut Values) -> bool {
    for number in 0..4_u32 {
        if values.push(Value::I32(number)).is_err() {
            return false;
        }
    }
    true
}

// Whether a fifth value goes behind four, or leaves them where there is no memory.
fn keeps_four(values: &mut Values) -> bool {
    let fits = values.push(Value::I32(4)).is_ok();
    let count = if fits { 5 } else { 4 };
    values.len() == count && values.get(3) == Some(Value::I32(3))
}

#[test]
fn holds_four_without_memory(rt: HostRuntime) {
    let mut values = Values::new(rt.alloc());
    assert!(rt; takes_four(&mut values));
    assert!(rt; keeps_four(&mut values));
}
