//! The numbers that an action has, as it runs.

ghost use Rattle.std.specs.Prelude.{◌≡◌, ◌≤◌, ◌+ℤ◌, length, map, pos, take};
ghost use Rattle.std.specs.Int.{int_wrap, w32};
ghost use Rattle.std.specs.List.{sum};
ghost use Rattle.text_script.specs.Bodies.{operand_value};

use part_handlers::Cells;
use text_calls::Operand;

/// The most numbers that an action lists; a message has room for one fewer.
pub(crate) const MOST: usize = 17;

/// The number that an operand stands for: in an action of a handler, with the arguments of the message; elsewhere there
/// are none.
pub fn value_of(operand: Operand, cells: &Cells, args: &[i32]) -> i32
    ensures { result ≡ operand_value cells.now args.now operand }
{
    match operand {
        Operand::Number(number) => number,
        Operand::Cell(cell) => cells.get(cell),
        Operand::Argument(place) => match args.get(place as usize) {
            Some(number) => *number,
            None => 0,
        },
    }
}

/// The numbers that operands stand for, in order, and then others.
pub(crate) fn values_of(operands: &[Operand], cells: &Cells, args: &[i32]) -> [i32; MOST]
    requires { length operands.now ≤ 17 }
    ensures { take (length operands.now) result
        ≡ map (operand_value cells.now args.now) operands.now }
{
    let mut values = [0; MOST];
    for (i, operand) in operands.iter().enumerate() {
        values[i] = value_of(*operand, cells, args);
    }
    values
}

/// The sum of two numbers, wrapping.
pub(crate) fn wrapping_sum(number: i32, other: i32) -> i32
    ensures { result ≡ int_wrap w32 (number +ℤ other) }
{
    number.wrapping_add(other)
}

/// The sum of a number and of bytes, wrapping.
pub(crate) fn sum_with(number: i32, bytes: &[u8]) -> i32
    ensures { result ≡ int_wrap w32 (number +ℤ pos (sum bytes.now)) }
{
    let mut total = number;
    for byte in bytes {
        total = wrapping_sum(total, i32::from(*byte));
    }
    total
}
