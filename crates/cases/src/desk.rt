use crate::told::Refused;
use algebra::{Algebra, Op};
use comparison::{Checked, check, lay};
use diagram::{Memo, Row, Table};
use netlist::Line;

// A table of up to three inputs, with what its calls take beside it: so many of its work rows as are asked for, which is in
// most cases as few as will do.
#[derive(Drop)]
pub(crate) struct Desk<G, M> {
    pub table: Table,
    pub algebra: G,
    pub memo: M,
    pub rows: [Row; 4],
    lent: usize,
}

impl<G: Algebra + Drop, M: Memo + Drop> Desk<G, M> {
    // A started table of so many places.
    pub(crate) fn new(
        rt: &HostRuntime,
        algebra: G,
        memo: M,
        places: usize,
        inputs: u8,
        lent: usize,
    ) -> anyhow::Result<Desk<G, M>> {
        let mut desk = Desk {
            table: Table::new(rt.alloc(), places)?,
            algebra,
            memo,
            rows: [Row::default(); 4],
            lent,
        };
        desk.table
            .start(&mut desk.memo, inputs)
            .map_err(Refused::Table)?;
        Ok(desk)
    }

    pub(crate) fn input(&mut self, input: u8) -> Result<u32, Refused> {
        Ok(self.table.input(&self.algebra, &mut self.memo, input)?)
    }

    pub(crate) fn turn(&mut self, x: u32) -> Result<u32, Refused> {
        let rows = &mut self.rows[..];
        let rows = &mut rows[..self.lent.min(4)];
        Ok(self.table.turn(&self.algebra, &mut self.memo, rows, x)?)
    }

    pub(crate) fn join(&mut self, op: Op, x: u32, y: u32) -> Result<u32, Refused> {
        let rows = &mut self.rows[..];
        let rows = &mut rows[..self.lent.min(4)];
        let op = u8::from(op);
        Ok(
            self.table
                .join(&self.algebra, &mut self.memo, rows, op, x, y)?,
        )
    }

    pub(crate) fn check(&mut self, x: u32, y: u32) -> Result<Checked, Refused> {
        let rows = &mut self.rows[..];
        let rows = &mut rows[..self.lent.min(4)];
        Ok(check(&mut self.table, &self.algebra, &mut self.memo, rows, x, y)?)
    }

    // Lays a netlist, whose lines' handles go into a list.
    pub(crate) fn lay(&mut self, lines: &[Line], handles: &mut [u32]) -> Result<(), Refused> {
        let rows = &mut self.rows[..];
        let rows = &mut rows[..self.lent.min(4)];
        lay(
            &mut self.table,
            &self.algebra,
            &mut self.memo,
            rows,
            lines,
            handles,
        )?;
        Ok(())
    }

    // IF `when` THEN `then` ELSE `other`, by two gates of IFAND under an IFOR.
    pub(crate) fn choose(&mut self, when: u32, then: u32, other: u32) -> Result<u32, Refused> {
        let not_when = self.turn(when)?;
        let yes = self.join(Op::IfAnd, when, then)?;
        let no = self.join(Op::IfAnd, not_when, other)?;
        self.join(Op::IfOr, yes, no)
    }
}
