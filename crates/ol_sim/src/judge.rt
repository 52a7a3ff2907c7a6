// Faults 6 to 14 in their order, and the tables of a file that reads without fault.
ghost use Rattle.std.specs.Prelude.{◌≡◌, suc, ◌≤◌, min, length};
ghost use Rattle.std.proofs.Math.Option.{none};
ghost use Rattle.ol_spec.specs.Limits.{relay_loader};
ghost use Rattle.ol_spec.specs.Admission.{fault6, fault13, state_size};
ghost use Rattle.ol_tables.specs.At.{file_at};
ghost use Rattle.ol_tables.specs.Stands.{FileReads};
ghost use Rattle.ol_tables.specs.Tables.{Rows, size_cap};
ghost use Rattle.ol_tables.specs.Numbers.{numbers};
ghost use Rattle.ol_check.specs.Founds.{place_of};
ghost use Rattle.ol_sim.specs.Judging.{refused_if, Loads, Judges, Measured, Admits, Found, names_after, from6, from7, from22, from11, from12, from13, MainReady, ConstantsReady, OrderReady, ArraysReady, ShapesReady, NamesReady};

use crate::program::Project;
use ol_check::Faults;
use ol_check::clash::Sorting;
use ol_check::file::faults;
use ol_check::rows::Sections;
use ol_check::size::{not_operator, state_size};
use ol_order::table::orders_of;
use ol_run::constants::constant_values;
use ol_shapes::misshapen;
use ol_spec::Fault;
use ol_tables::bytes::byte;
use ol_tables::table::{ORDERS, SLOTS, pack_firsts, pack_nodes};
use ol_tables::tables::FileRows;

// What a file without fault gives: the length of its state, and its main node's number.
#[derive(Clone, Copy)]
pub(crate) struct Admitted {
    pub(crate) size: usize,
    pub(crate) main: usize,
}

// The fault of this number, where it holds at a place.
fn refuse_at(number: u8, place: Option<usize>) -> Result<(), Fault>
    ensures { result ≡ refused_if number place }
{
    match place {
        Some(place) => Err(Fault { number, place }),
        None => Ok(()),
    }
}

// 13: the state, of this length, is too long.
fn too_long(file: &[u8], rows: &FileRows, main: usize, size: usize) -> Option<usize>
    requires { FileReads file.now × Rows (file_at file.now) (numbers rows.now) × (suc main ≡ length (file_at file.now).nodes) × (size ≡ min (state_size (file_at file.now)) size_cap) }
    ensures { (place_of result ≡ fault13 relay_loader (file_at file.now)) × (place_of result ≡ none → size ≤ 32768) }
{
    if 32768 < size {
        Some(rows.node(main).place)
    } else {
        None
    }
}

// 13 and 14.
fn judge_main(file: &[u8], rows: &FileRows, size: usize, main: usize) -> Result<Admitted, Fault>
    requires { MainReady file.now (numbers rows.now) size main }
    ensures { Judges file.now (from13 (file_at file.now)) (Measured file.now) result }
{
    refuse_at(13, too_long(file, rows, main, size))?;
    refuse_at(14, not_operator(file, rows, main + 1))?;
    Ok(Admitted { size, main })
}

// What judging from 7 on asks and leaves as it is: the file, the rows of its table, its sections, how many cells its constants have, and whether every declared name has an entry of its own among the definers:
// facts of their own, with no field that waits for them.
#[derive(Clone, Copy)]
struct Judging<'a> {
    project: Project<'a>,
    rows: &'a FileRows,
    sections: Sections,
    cells: usize,
    low: bool,
}

impl Judging<'_> {
    // 12 to 14: the rows and the constants' cells are written into the table.
    fn constants(&self, tab: &mut [u8], size: usize) -> Result<Admitted, Fault>
        requires { ConstantsReady self.now.project.file.now (numbers self.now.rows.now) tab.old self.now.sections size }
        ensures { Judges self.now.project.file.now (from12 (file_at self.now.project.file.now)) (Admits self.now.project.file.now tab.new) result }
    {
        let file = self.project.file;
        let c = self.sections.constants;
        let count = byte(file, c);
        let nodes = byte(file, self.sections.nodes);
        let enums = byte(file, 1);
        pack_nodes(self.rows, nodes, tab);
        pack_firsts(self.rows, enums, tab);
        let stuck = constant_values(file, tab, nodes, c + 1, count);
        refuse_at(12, stuck.err())?;
        judge_main(file, self.rows, size, nodes - 1)
    }

    // 11 to 14: the orders are written. The main instance has so many bytes.
    fn order(&self, tab: &mut [u8], main: usize) -> Result<Admitted, Fault>
        requires loads { Loads self.now.project }
        requires order_ready { OrderReady self.now.project.file.now (numbers self.now.rows.now) tab.old self.now.sections self.now.cells main self.now.low }
        ensures { Judges self.now.project.file.now (from11 (file_at self.now.project.file.now)) (Admits self.now.project.file.now tab.new) result }
    {
        let project = self.project;
        let ring = orders_of(
            project.file,
            project.enums,
            project.places,
            self.rows,
            self.low,
            &mut tab[ORDERS..],
        );
        refuse_at(11, ring.err())?;
        let size = state_size(self.cells, main);
        self.constants(tab, size)
    }

    // 22 and 11 to 14: where nothing is about arrays, 22 is not asked.
    fn arrays(&self, tab: &mut [u8], found: Faults) -> Result<Admitted, Fault>
        requires loads { Loads self.now.project }
        requires arrays_ready { ArraysReady self.now.project.file.now (numbers self.now.rows.now) tab.old self.now.sections self.now.cells self.now.low found }
        ensures { Judges self.now.project.file.now (from22 (file_at self.now.project.file.now)) (Admits self.now.project.file.now tab.new) result }
    {
        if found.arrays {
            let (slots, plans) = tab[SLOTS..].split_at((tab.len() - SLOTS) / 2);
            let c = self.sections.constants;
            let n = self.sections.nodes;
            let misplaced = misshapen(self.project.file, self.rows, c, n, slots, plans);
            refuse_at(22, misplaced)?;
        }
        self.order(tab, found.size)
    }

    // 7 to 14 and 22, of which 7 to 10 were looked for.
    fn shapes(&self, tab: &mut [u8], found: Faults) -> Result<Admitted, Fault>
        requires loads { Loads self.now.project }
        requires shapes_ready { ShapesReady self.now.project.file.now (numbers self.now.rows.now) tab.old self.now.sections self.now.cells self.now.low found }
        ensures { Judges self.now.project.file.now (from7 (file_at self.now.project.file.now)) (Admits self.now.project.file.now tab.new) result }
    {
        refuse_at(7, found.unseen)?;
        refuse_at(8, found.again)?;
        refuse_at(9, found.called)?;
        refuse_at(10, found.shaped)?;
        self.arrays(tab, found)
    }
}

// 6 to 14 and 22, of which 6 was looked for, with an empty table by name.
pub(crate) fn judge_names(
    project: &Project,
    rows: &mut FileRows,
    tab: &mut [u8],
    names: &mut [u8],
    sections: Sections,
    cells: usize,
    low: bool,
    sorted: Sorting,
) -> Result<Admitted, Fault>
    requires loads { Loads project.now }
    requires names_ready { NamesReady project.now.file.now (numbers rows.old) tab.old names.old sections cells low }
    requires found { Found (file_at project.now.file.now) sorted }
    ensures judged { Judges project.now.file.now (from6 (file_at project.now.file.now)) (Admits project.now.file.now tab.new) result }
    ensures named { names.new ≡ names_after (fault6 (file_at project.now.file.now)) (file_at project.now.file.now) names.old }
{
    refuse_at(6, sorted.found)?;
    // Two splits of whole slices: after a split of the part `tab[SLOTS..]`, a proof would know only the length of the table.
    let (_, rest) = tab.split_at_mut(SLOTS);
    let (slots, plans) = rest.split_at_mut(rest.len() / 2);
    let found = faults(
        project.file,
        rows,
        sections,
        names,
        slots,
        plans,
        sorted.arrays,
    );
    let judging = Judging {
        project: *project,
        rows,
        sections,
        cells,
        low,
    };
    judging.shapes(tab, found)
}
