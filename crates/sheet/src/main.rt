// The wall sheet: a line for each value, with the number that each of the six columns' controllers stores for it.
#![tactic(auto)]

ghost use Rattle.std.specs.Prelude.{◌≡◌, ◌≤◌};
ghost use Rattle.controls.specs.Sheet.{column_controller, on_sheet, sheet_line};

use controls::Column;
use kinds::Kind;
use std::io;

fn main(rt: HostRuntime) -> io::Result<()> {
    print!(rt; "value\t23: (127 - v) x 194 / 256\t51: v x 50, at least 200\t52: v x 256/104\t")?;
    println!(rt; "54: v x 256/42, at least 1\t56, 57: v x 22 + 100\t58: v x 25, at least 150")?;
    for value in 0..128 {
        print_line(&rt, value)?;
    }
    Ok(())
}

fn print_line(rt: &impl Print, value: u32) -> io::Result<()>
    requires { value ≤ 127 }
{
    print!(rt; "{value}")?;
    for number in numbers(value) {
        print!(rt; "\t{number}")?;
    }
    println!(rt)
}

// The numbers of a line, in the order of the headings.
fn numbers(value: u32) -> [u16; 6]
    requires { value ≤ 127 }
    ensures { result ≡ sheet_line value }
{
    [
        in_column(Column::Threshold, value),
        in_column(Column::Times50, value),
        in_column(Column::Times256Over104, value),
        in_column(Column::Times256Over42, value),
        in_column(Column::Times22Plus100, value),
        in_column(Column::Times25, value),
    ]
}

// A column's number for a value, as the firmware scales it. Scaling refuses none of these.
fn in_column(column: Column, value: u32) -> u16
    requires { value ≤ 127 }
    ensures { result ≡ on_sheet column value }
{
    controls::scale(controller_of(column), value, Kind::Pod).unwrap()
}

// A controller of a POD for each column. 57 has the numbers of 56.
fn controller_of(column: Column) -> u32
    ensures { result ≡ column_controller column }
{
    match column {
        Column::Threshold => 23,
        Column::Times50 => 51,
        Column::Times256Over104 => 52,
        Column::Times256Over42 => 54,
        Column::Times22Plus100 => 56,
        Column::Times25 => 58,
    }
}
