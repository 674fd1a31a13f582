// Prints the facet numbering from the proved table: a line for each type, in code order.
#![tactic(auto)]

use shapes::{CODES, FacetTable};
use std::io;

fn write_type(rt: &impl Print, t: u32) -> io::Result<()> {
    match t {
        1 => rt.print("BAR_2"),
        2 => rt.print("TRI_3"),
        3 => rt.print("QUAD_4"),
        4 => rt.print("TETRA_4"),
        5 => rt.print("PYRA_5"),
        6 => rt.print("PENTA_6"),
        7 => rt.print("HEXA_8"),
        _ => rt.print("?"),
    }
}

fn write_number(rt: &impl Print, n: u32) -> io::Result<()> {
    rt.print(n)
}

// One facet, as (0,1).
fn write_facet(rt: &impl Print, rows: &FacetTable, t: u32, f: u32) -> io::Result<()> {
    rt.print(" (")?;
    let corners = shapes::column(rows, t, f, 0);
    for k in 0..corners {
        if 0 < k {
            rt.print(",")?;
        }
        write_number(rt, shapes::column(rows, t, f, k + 1))?;
    }
    rt.print(")")
}

fn write_line(rt: &impl Print, rows: &FacetTable, t: u32) -> io::Result<()> {
    write_number(rt, t)?;
    rt.print(" ")?;
    write_type(rt, t)?;
    rt.print(" dimension ")?;
    write_number(rt, shapes::dimension(t))?;
    rt.print(" marks ")?;
    write_number(rt, shapes::mark_count(t))?;
    rt.print(" facets")?;
    let facets = shapes::facet_count(t);
    for f in 0..facets {
        write_facet(rt, rows, t, f)?;
    }
    rt.print("\n")
}

fn main(rt: HostRuntime) -> io::Result<()> {
    let rows = shapes::facet_table();
    for t in 1..CODES {
        write_line(&rt, &rows, t)?;
    }
    Ok(())
}
