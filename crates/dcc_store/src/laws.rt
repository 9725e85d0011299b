//! Laws of books and contents, for the layers above. Each function does nothing: it has its laws as its contract.

ghost use Rattle.dcc_store.specs.Laws.{ContentHasOneBook, AlikeBooksHaveOneContent, OwnGrows, OthersStay};
ghost use Rattle.dcc_store.specs.Laws.{NewIsNext, NextIsFound, BooksGrow, AccountsGrow};
ghost use Rattle.dcc_store.specs.Laws.{BatchesLeaveOthers, BatchesGrowEach, BatchesAreTheirActs, BatchesJoin};
ghost use Rattle.dcc_store.specs.Laws.{BooksGrowByBatches, BatchesAreFound, RestIsNext};

use dcc_act::same_subscribers_are_equal;
use dcc_model::{funds_are_accounted_for, one_more_act};

/// A content is the content of one book alone. Books that hold the same acts have the same contents.
pub fn content_has_one_book()
    ensures one { ContentHasOneBook }
    ensures alike { AlikeBooksHaveOneContent }
{}

/// An added act stands behind the other acts of its subscriber. The acts of each subscriber that does not equal this subscriber stay
/// as they were.
pub fn acts_stand_apart()
    ensures own { OwnGrows }
    ensures others { OthersStay }
{}

/// An act that is new may come next, with the entries that it adds. An act that may come next in a book may come next in the book's
/// content. A book to which such an act is added is a book. The account of the act's subscriber has one act more, and its funds grow
/// by the sum of the entries.
pub fn new_acts_come_next()
    ensures next { NewIsNext }
    ensures found { NextIsFound }
    ensures book { BooksGrow }
    ensures account { AccountsGrow }
{
    one_more_act();
    funds_are_accounted_for();
}

/// Each act of a batch stands behind the other acts of its subscriber. The acts of each other subscriber stay as they were. Two batches
/// one after another are one batch.
pub fn batches_stand_apart()
    ensures own { BatchesGrowEach }
    ensures others { BatchesLeaveOthers }
    ensures first { BatchesAreTheirActs }
    ensures join { BatchesJoin }
{
    same_subscribers_are_equal();
}

/// Acts of a batch that may come next in a book may come next in the book's content. A book to which they are added is a book. Once one
/// act of a batch is added, the rest may come next.
pub fn batches_come_next()
    ensures book { BooksGrowByBatches }
    ensures found { BatchesAreFound }
    ensures rest { RestIsNext }
{
    same_subscribers_are_equal();
    new_acts_come_next();
}
