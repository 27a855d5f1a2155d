ghost use Rattle.std.specs.Prelude.{◌≡◌, MatchResult};
ghost use Rattle.trees.specs.View.{view};
ghost use Rattle.sessions.specs.Sessions.{stage_of, stage, Unperformed, Performed, Led};

use crate::apply::apply;
use crate::ledger::Ledger;
use crate::reply::Reply;
use crate::session::Session;
use scripts::call::Edit;
use scripts::complaint::Complaint;
use trees::{EditFault, UnitTable};

impl Ledger {
    // Performs an edit on the table of this ledger: what the table makes of it, or why it declines it. A complaint
    // leaves all as it was.
    pub fn perform(
        &mut self,
        table: &mut UnitTable<'_>,
        edit: Edit,
    ) -> Result<Result<Reply, EditFault>, Complaint>
        ensures led { Led (stage_of self.old (view table.old.records)) (stage_of self.new (view table.new.records)) }
        ensures performed { MatchResult result
            (Performed (stage_of self.old (view table.old.records)) (stage_of self.new (view table.new.records)) edit)
            (λ c. (stage_of self.new (view table.new.records) ≡ stage_of self.old (view table.old.records)) × Unperformed (stage_of self.old (view table.old.records)) edit c) }
    {
        self.make_room()?;
        let order = self.order(edit)?;
        let answer = apply(table, order);
        Ok(self.settle(answer))
    }
}

impl Session<'_> {
    // The same on the session's own table.
    pub fn perform(&mut self, edit: Edit) -> Result<Result<Reply, EditFault>, Complaint>
        ensures led { Led (stage self.old) (stage self.new) }
        ensures performed { MatchResult result
            (Performed (stage self.old) (stage self.new) edit)
            (λ c. (stage self.new ≡ stage self.old) × Unperformed (stage self.old) edit c) }
    {
        self.ledger.perform(&mut self.table, edit)
    }
}
