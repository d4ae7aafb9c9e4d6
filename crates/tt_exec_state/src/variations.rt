//! Reading the instance of a variable font. OpenType, "The TrueType Instruction Set", "Getting Information".

ghost use Rattle.tt_exec_stack.specs.Stack.{Does};
ghost use Rattle.tt_exec_state.specs.Instances.{instance_of};
ghost use Rattle.tt_exec_state.specs.Variations as is;

use crate::instance::Instance;
use crate::instruction::Variation;
use tt_core::Why;
use tt_exec_stack::Stack;

/// GETVARIATION[], 0x91: -> the place on each axis, the first axis' first.
fn getvariation(coordinates: &[i16], stack: &mut Stack) -> Result<(), Why>
    ensures { Does (is.all_pushed coordinates.now stack.old) stack.new result }
{
    for coordinate in coordinates {
        stack.push(i64::from(*coordinate))?;
    }
    Ok(())
}

/// GETDATA[], 0x92: -> 17.
fn getdata(stack: &mut Stack) -> Result<(), Why>
    ensures { Does (is.getdata stack.old) stack.new result }
{
    stack.push(17)
}

/// Executes an instruction that reads the instance. Error: StackFull.
pub fn answer_variation(op: Variation, instance: &Instance, stack: &mut Stack) -> Result<(), Why>
    ensures { Does (is.variation_answered op (instance_of instance.now) stack.old) stack.new result }
{
    match op {
        Variation::Getvariation => getvariation(instance.coordinates(), stack),
        Variation::Getdata => getdata(stack),
    }
}
