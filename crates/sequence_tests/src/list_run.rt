use super::dice::{next, pick};
use super::held::check_held;
use sequence::{Sequence, SequenceError};
use std::process::Abort;
use std::test::Fail;

// What a list would answer, or no memory for the vector.
type Told = Result<Result<(), SequenceError>, Fail>;

fn push(model: &mut Vec<u32>, capacity: usize, entry: u32) -> Told {
    if model.len() == capacity {
        return Ok(Err(SequenceError::Full));
    }
    model.push(entry)?;
    Ok(Ok(()))
}

fn replace(model: &mut Vec<u32>, n: usize, entry: u32) -> Result<(), SequenceError> {
    if n >= model.len() {
        return Err(SequenceError::OutOfRange);
    }
    model[n] = entry;
    Ok(())
}

fn remove(model: &mut Vec<u32>, n: usize) -> Result<(), SequenceError> {
    if n >= model.len() {
        return Err(SequenceError::OutOfRange);
    }
    model.remove(n);
    Ok(())
}

fn raise(model: &mut Vec<u32>, n: usize) -> Told {
    if n >= model.len() {
        return Ok(Err(SequenceError::OutOfRange));
    }
    let entry = model.remove(n);
    model.push(entry)?;
    Ok(Ok(()))
}

fn call(
    rt: &impl Abort,
    list: &mut Sequence<'_, u32>,
    model: &mut Vec<u32>,
    seed: u32,
) -> Result<(), Fail> {
    let n = pick(seed, 8) as usize;
    // each range of the number drawn is one call, with its weight
    match pick(seed, 16) {
        0..=5 => assert_eq!(rt; list.push(seed), push(model, list.capacity(), seed)?),
        6..=8 => assert_eq!(rt; list.replace(n, seed), replace(model, n, seed)),
        9..=11 => assert_eq!(rt; list.raise(n), raise(model, n)?),
        12..=14 => assert_eq!(rt; list.remove(n), remove(model, n)),
        _ => {
            if pick(seed, 20) == 0 {
                list.clear();
                model.clear();
            }
        }
    }
    Ok(())
}

#[test]
fn as_a_vector_would(rt: HostRuntime) -> Result<(), Fail> {
    let mut items = [0; 12];
    let mut list = Sequence::new(&mut items, 10);
    let mut model = Vec::new(rt.alloc());
    let mut seed = 2026;
    for _ in 0..600 {
        seed = next(seed);
        call(&rt, &mut list, &mut model, seed)?;
        check_held(&rt, &list, &model);
    }
    Ok(())
}
