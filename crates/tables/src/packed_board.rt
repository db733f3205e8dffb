// The packed board as a board.

ghost use Rattle.std.specs.Prelude.{◌≡◌, ◌<◌, ◌↔◌, ◌++◌, Err, IfErr, IfOk, length};
ghost use Rattle.measures.specs.Progress.{IsLeastTable};
ghost use Rattle.std.proofs.Common.{◌∙◌, ap, append_assoc, sym};
ghost use Rattle.std.proofs.lemmas.List.{append-nil};
ghost use Rattle.tables.specs.Seats.{Did, IsSeatOf, board_game, done, seen};
ghost use Rattle.tables.specs.declared.error.TableError.TheVariants as errors;

use crate::board::Board;
use crate::error::TableError;
use crate::packed::{PackedBoard, PackedSeat};
use measures::measure::Measure;
use measures::table::PlainTable;

impl Board for PackedBoard {
    type Seat = PackedSeat;

    ghost game = { board_game };

    ghost fits = { IsSeatOf };

    ghost did = { λ b. Did };

    ghost is_full = { λ b. length (board_game b).vertices ≡ 0 };

    ghost idle = { λ b s. sym (append-nil (done s)) };

    ghost chained = { λ b first middle last before after one two. two ∙ (ap (λ accesses. accesses ++ after) one ∙ append_assoc (done first) before after) };

    fn seat(&self) -> Result<PackedSeat, TableError>
        ensures seat { IfOk result (λ s. IsSeatOf self.now s) }
        ensures none { (result ≡ Err errors.NoSeat) ↔ (length (board_game self.now).vertices ≡ 0) }
        ensures refused { IfErr result (λ e. e ≡ errors.NoSeat) }
    {
        match self.new_seat() {
            Some(seat) => Ok(seat),
            None => Err(TableError::NoSeat),
        }
    }

    fn read(&self, seat: &mut PackedSeat, v: u32) -> Measure {
        self.load(seat, v)
    }

    fn raise(&self, seat: &mut PackedSeat, v: u32, m: &Measure) -> bool {
        self.lift_to(seat, v, m)
    }

    fn last(&self, seat: &mut PackedSeat)
        requires { IsSeatOf self.now seat.old }
        ensures seat { IsSeatOf self.now seat.new }
        ensures least { IsLeastTable (board_game self.now) (seen seat.new) }
    {
        self.settle_seat(seat);
    }

    fn finish(self, table: &mut PlainTable) {
        let Some(mut seat) = self.new_seat() else {
            return;
        };
        self.read_into(&mut seat, table);
    }
}
