// The checks, in rising number, of which the first that fails is told:
// 3: a bit of 21 to 31 is set (the detail is the lowest such bit). 4: the operator bits are set in LOAD or STORE. These two are of the layer of words.
// 5: the first place lies above the last. 6: a single whose first place is not its last. 7: the third word is not 0 although it is not sent.
use crate::fields::*;
use numbers::layer::Layer;
use numbers::refusal::Refusal;
use program::kind::Program;
use program::layout::Words;
use std::process::Abort;
use std::test::Fail;

// These words are refused, and the refusal tells this.
fn refused(rt: &impl Abort, first: u32, third: u32, number: u32, detail: u32) -> Result<(), Fail> {
    let Err(fault) = Program::read(Words {
        first,
        second: 1,
        third,
    }) else {
        return Err(Fail::new("accepted"));
    };
    let layer = if number < 5 {
        Layer::Words
    } else {
        Layer::Program
    };
    assert_eq!(rt; fault.number(), number);
    assert_eq!(rt; fault.detail(), detail);
    assert_eq!(rt; fault.layer(), layer);
    Ok(())
}

#[test]
fn each_stray_bit(rt: HostRuntime) -> Result<(), Fail> {
    let mut word = BIT_21;
    for bit in 21..32 {
        // this bit alone, with all bits above it, and over a word that the other checks accept
        refused(&rt, word, 0, 3, bit)?;
        refused(&rt, 0u32.wrapping_sub(word), 0, 3, bit)?;
        refused(&rt, word | 1967365, 0, 3, bit)?;
        word = word.wrapping_mul(2);
    }
    Ok(())
}

#[test]
fn one_check_fails(rt: HostRuntime) -> Result<(), Fail> {
    // the first word, the third word, and the number of the check that refuses them
    let table = [
        // an operator in LOAD and in STORE
        [OR, 0, 4],
        [MAX, 0, 4],
        [ADD, 0, 4],
        [STORE + OR, 0, 4],
        [STORE + MAX, 0, 4],
        [STORE + ADD, 0, 4],
        [SINGLE + OR, 0, 4],
        [SINGLE + STORE + ADD, 9, 4],
        // places 9 to 8, and 255 to 0
        [FROM_9_TO_8, 0, 5],
        [255, 0, 5],
        // a single of two places
        [SINGLE + FROM_1_TO_2, 0, 6],
        [SINGLE + ADD + MP + FROM_1_TO_2, 9, 6],
        // a third word in a block of each mode, and in a single in LOAD
        [0, 9, 7],
        [STORE, 1, 7],
        [MP, 2147483648, 7],
        [SYNC, 4294967295, 7],
        [SINGLE, 9, 7],
    ];
    for [first, third, number] in table {
        refused(&rt, first, third, number, 0)?;
    }
    Ok(())
}

#[test]
fn two_checks_fail(rt: HostRuntime) -> Result<(), Fail> {
    // the first word, the third word, and the number and the detail of the lower check
    let table = [
        [BIT_22 + BIT_30, 0, 3, 22],
        [BIT_21 + OR, 0, 3, 21],
        [BIT_31 + FROM_9_TO_8, 0, 3, 31],
        [BIT_22 + SINGLE + FROM_1_TO_2, 0, 3, 22],
        [BIT_21, 9, 3, 21],
        [OR + FROM_9_TO_8, 0, 4, 0],
        [SINGLE + OR + FROM_1_TO_2, 0, 4, 0],
        [OR, 9, 4, 0],
        [SINGLE + FROM_9_TO_8, 0, 5, 0],
        [FROM_9_TO_8, 9, 5, 0],
        [SINGLE + FROM_1_TO_2, 9, 6, 0],
    ];
    for [first, third, number, detail] in table {
        refused(&rt, first, third, number, detail)?;
    }
    Ok(())
}
