//! Each request by the call that is its.

ghost use Rattle.std.specs.Prelude.{IfOk, IfErr, reverse};
ghost use Rattle.cell_asks.specs.Told.{AreTold};
ghost use Rattle.table_request.specs.declared.request.Request.{Request};
ghost use Rattle.request_calls.specs.Requests.{Stops, Tries};

use cell_asks::{Looks, StepError, Tried};
use table_request::{
    BatchGet, BatchWrite, CreateTable, DeleteItem, DeleteTable, DescribeTable, DescribeTimeToLive,
    GetItem, ListTables, PutItem, Query, Scan, TransactGet, TransactWrite, UpdateItem, UpdateTable,
    UpdateTimeToLive,
};
use transact_asks::{GoGate, Transacts};
use transact_calls::Transacted;

/// A request that one call answers.
pub(crate) trait Call: Sized {
    // It, as one of all requests.
    ghost asked: { Self → Request };

    /// Tries it once.
    fn try_once<C: Transacts>(
        self,
        cells: &C,
        pass: &mut C::Pass,
        looks: &mut Looks,
    ) -> Result<Tried, StepError>
        requires fits { C.fits cells.now pass.old }
        requires told { AreTold (reverse (C.seen pass.old).front) looks.old }
        ensures ok { IfOk result (λ tried. Tries (C.count cells.now) (C.seen pass.old) (asked self) tried (C.seen pass.new)) }
        ensures err { IfErr result (λ why. Stops (C.count cells.now) (C.seen pass.old) (asked self) why (C.seen pass.new)) }
        ensures told { AreTold (reverse (C.seen pass.new).front) looks.new }
        ensures fits { C.fits cells.now pass.new };
}

impl Call for CreateTable {
    ghost use Rattle.table_request.specs.declared.request.Request.{Request};

    ghost asked = { Request.CreateTable };

    #[tactic(auto, using(crate::proofs::Trying::tries, crate::proofs::Trying::stops))]
    fn try_once<C: Transacts>(
        self,
        cells: &C,
        pass: &mut C::Pass,
        looks: &mut Looks,
    ) -> Result<Tried, StepError> {
        match table_calls::create_table(cells, pass, self) {
            Ok(reply) => Ok(Tried::Reply(reply)),
            Err(why) => Err(why),
        }
    }
}

impl Call for DeleteTable {
    ghost use Rattle.table_request.specs.declared.request.Request.{Request};

    ghost asked = { Request.DeleteTable };

    #[tactic(auto, using(crate::proofs::Trying::tries, crate::proofs::Trying::stops))]
    fn try_once<C: Transacts>(
        self,
        cells: &C,
        pass: &mut C::Pass,
        looks: &mut Looks,
    ) -> Result<Tried, StepError> {
        match table_calls::delete_table(cells, pass, self) {
            Ok(reply) => Ok(Tried::Reply(reply)),
            Err(why) => Err(why),
        }
    }
}

impl Call for UpdateTable {
    ghost use Rattle.table_request.specs.declared.request.Request.{Request};

    ghost asked = { Request.UpdateTable };

    #[tactic(auto, using(crate::proofs::Trying::tries, crate::proofs::Trying::stops))]
    fn try_once<C: Transacts>(
        self,
        cells: &C,
        pass: &mut C::Pass,
        looks: &mut Looks,
    ) -> Result<Tried, StepError> {
        match table_calls::update_table(cells, pass, self) {
            Ok(reply) => Ok(Tried::Reply(reply)),
            Err(why) => Err(why),
        }
    }
}

impl Call for DescribeTable {
    ghost use Rattle.table_request.specs.declared.request.Request.{Request};

    ghost asked = { Request.DescribeTable };

    #[tactic(auto, using(crate::proofs::Trying::tries, crate::proofs::Trying::stops))]
    fn try_once<C: Transacts>(
        self,
        cells: &C,
        pass: &mut C::Pass,
        looks: &mut Looks,
    ) -> Result<Tried, StepError> {
        match table_calls::describe_table(cells, pass, self) {
            Ok(reply) => Ok(Tried::Reply(reply)),
            Err(why) => Err(why),
        }
    }
}

impl Call for ListTables {
    ghost use Rattle.table_request.specs.declared.request.Request.{Request};

    ghost asked = { Request.ListTables };

    #[tactic(auto, using(crate::proofs::Trying::tries, crate::proofs::Trying::stops))]
    fn try_once<C: Transacts>(
        self,
        cells: &C,
        pass: &mut C::Pass,
        looks: &mut Looks,
    ) -> Result<Tried, StepError> {
        match table_calls::list_tables(cells, pass, self) {
            Ok(reply) => Ok(Tried::Reply(reply)),
            Err(why) => Err(why),
        }
    }
}

impl Call for UpdateTimeToLive {
    ghost use Rattle.table_request.specs.declared.request.Request.{Request};

    ghost asked = { Request.UpdateTimeToLive };

    #[tactic(auto, using(crate::proofs::Trying::tries, crate::proofs::Trying::stops))]
    fn try_once<C: Transacts>(
        self,
        cells: &C,
        pass: &mut C::Pass,
        looks: &mut Looks,
    ) -> Result<Tried, StepError> {
        match table_calls::update_time_to_live(cells, pass, self) {
            Ok(reply) => Ok(Tried::Reply(reply)),
            Err(why) => Err(why),
        }
    }
}

impl Call for DescribeTimeToLive {
    ghost use Rattle.table_request.specs.declared.request.Request.{Request};

    ghost asked = { Request.DescribeTimeToLive };

    #[tactic(auto, using(crate::proofs::Trying::tries, crate::proofs::Trying::stops))]
    fn try_once<C: Transacts>(
        self,
        cells: &C,
        pass: &mut C::Pass,
        looks: &mut Looks,
    ) -> Result<Tried, StepError> {
        match table_calls::describe_time_to_live(cells, pass, self) {
            Ok(reply) => Ok(Tried::Reply(reply)),
            Err(why) => Err(why),
        }
    }
}

impl Call for GetItem {
    ghost use Rattle.table_request.specs.declared.request.Request.{Request};

    ghost asked = { Request.GetItem };

    #[tactic(auto, using(crate::proofs::Trying::tries, crate::proofs::Trying::stops))]
    fn try_once<C: Transacts>(
        self,
        cells: &C,
        pass: &mut C::Pass,
        looks: &mut Looks,
    ) -> Result<Tried, StepError> {
        let tried = item_calls::get_item(cells, pass, looks, &self);
        drop(self);
        tried
    }
}

impl Call for Query {
    ghost use Rattle.table_request.specs.declared.request.Request.{Request};

    ghost asked = { Request.Query };

    #[tactic(auto, using(crate::proofs::Trying::tries, crate::proofs::Trying::stops))]
    fn try_once<C: Transacts>(
        self,
        cells: &C,
        pass: &mut C::Pass,
        looks: &mut Looks,
    ) -> Result<Tried, StepError> {
        let tried = page_calls::query(cells, pass, looks, &self);
        drop(self);
        tried
    }
}

impl Call for Scan {
    ghost use Rattle.table_request.specs.declared.request.Request.{Request};

    ghost asked = { Request.Scan };

    #[tactic(auto, using(crate::proofs::Trying::tries, crate::proofs::Trying::stops))]
    fn try_once<C: Transacts>(
        self,
        cells: &C,
        pass: &mut C::Pass,
        looks: &mut Looks,
    ) -> Result<Tried, StepError> {
        let tried = page_calls::scan(cells, pass, looks, &self);
        drop(self);
        tried
    }
}

impl Call for PutItem {
    ghost use Rattle.table_request.specs.declared.request.Request.{Request};

    ghost asked = { Request.PutItem };

    #[tactic(auto, using(crate::proofs::Trying::tries, crate::proofs::Trying::stops))]
    fn try_once<C: Transacts>(
        self,
        cells: &C,
        pass: &mut C::Pass,
        looks: &mut Looks,
    ) -> Result<Tried, StepError> {
        match item_calls::put_item(cells, pass, looks, self) {
            Ok(tried) => Ok(tried),
            Err(why) => Err(why),
        }
    }
}

impl Call for UpdateItem {
    ghost use Rattle.table_request.specs.declared.request.Request.{Request};

    ghost asked = { Request.UpdateItem };

    #[tactic(auto, using(crate::proofs::Trying::tries, crate::proofs::Trying::stops))]
    fn try_once<C: Transacts>(
        self,
        cells: &C,
        pass: &mut C::Pass,
        looks: &mut Looks,
    ) -> Result<Tried, StepError> {
        match item_calls::update_item(cells, pass, looks, self) {
            Ok(tried) => Ok(tried),
            Err(why) => Err(why),
        }
    }
}

impl Call for DeleteItem {
    ghost use Rattle.table_request.specs.declared.request.Request.{Request};

    ghost asked = { Request.DeleteItem };

    #[tactic(auto, using(crate::proofs::Trying::tries, crate::proofs::Trying::stops))]
    fn try_once<C: Transacts>(
        self,
        cells: &C,
        pass: &mut C::Pass,
        looks: &mut Looks,
    ) -> Result<Tried, StepError> {
        match item_calls::delete_item(cells, pass, looks, self) {
            Ok(tried) => Ok(tried),
            Err(why) => Err(why),
        }
    }
}

impl Call for BatchGet {
    ghost use Rattle.table_request.specs.declared.request.Request.{Request};

    ghost asked = { Request.BatchGet };

    #[tactic(auto, using(crate::proofs::Trying::tries, crate::proofs::Trying::stops))]
    fn try_once<C: Transacts>(
        self,
        cells: &C,
        pass: &mut C::Pass,
        looks: &mut Looks,
    ) -> Result<Tried, StepError> {
        match batch_calls::batch_get(cells, pass, looks, self) {
            Ok(tried) => Ok(tried),
            Err(why) => Err(why),
        }
    }
}

impl Call for BatchWrite {
    ghost use Rattle.table_request.specs.declared.request.Request.{Request};

    ghost asked = { Request.BatchWrite };

    #[tactic(auto, using(crate::proofs::Trying::tries, crate::proofs::Trying::stops))]
    fn try_once<C: Transacts>(
        self,
        cells: &C,
        pass: &mut C::Pass,
        looks: &mut Looks,
    ) -> Result<Tried, StepError> {
        match batch_calls::batch_write(cells, pass, looks, self) {
            Ok(tried) => Ok(tried),
            Err(why) => Err(why),
        }
    }
}

impl Call for TransactGet {
    ghost use Rattle.table_request.specs.declared.request.Request.{Request};

    ghost asked = { Request.TransactGet };

    #[tactic(auto, using(crate::proofs::Trying::tries, crate::proofs::Trying::stops))]
    fn try_once<C: Transacts>(
        self,
        cells: &C,
        pass: &mut C::Pass,
        looks: &mut Looks,
    ) -> Result<Tried, StepError> {
        match transact_calls::transact_get(cells, pass, looks, self) {
            Ok(tried) => Ok(tried),
            Err(why) => Err(why),
        }
    }
}

impl Call for TransactWrite {
    ghost use Rattle.table_request.specs.declared.request.Request.{Request};

    ghost asked = { Request.TransactWrite };

    #[tactic(auto, using(crate::proofs::Trying::tries, crate::proofs::Trying::stops))]
    fn try_once<C: Transacts>(
        self,
        cells: &C,
        pass: &mut C::Pass,
        looks: &mut Looks,
    ) -> Result<Tried, StepError> {
        // No gate stops it.
        match transact_calls::transact_write(cells, pass, looks, self, &mut GoGate) {
            Ok(Transacted::Tried(tried)) => Ok(tried),
            Ok(Transacted::Stopped) => unreachable!(),
            Err(why) => Err(why),
        }
    }
}
