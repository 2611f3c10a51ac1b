//! The call sites of a procedure.

ghost use Rattle.std.specs.Prelude.{◌≡◌, ◌≤◌, length, map};
ghost use Rattle.cmm_static_semantics.specs.Items.{parts_of};
ghost use Rattle.cmm_static_semantics.specs.Limits as limits;
ghost use Rattle.cmm_symbols.specs.Shown.{piece_part};

use cmm_ast::StmtForm;
use cmm_proc_scope::ProcNames;
use cmm_symbols::Piece;

/// Whether a statement is a call site.
pub(crate) fn is_site(form: &StmtForm) -> bool
    ensures { result ≡ limits.is_site form.now }
{
    match form {
        StmtForm::Call { convention, .. } => convention.is_none(),
        StmtForm::Checked { .. } => true,
        StmtForm::Empty => false,
        StmtForm::If { .. } => false,
        StmtForm::Switch { .. } => false,
        StmtForm::Span { .. } => false,
        StmtForm::Assign { .. } => false,
        StmtForm::Jump { .. } => false,
        StmtForm::Return { .. } => false,
        StmtForm::Label(_) => false,
        StmtForm::Continuation { .. } => false,
        StmtForm::Goto(_) => false,
        StmtForm::Cut { .. } => false,
    }
}

fn sites_of<'a>(piece: Piece<'a>) -> u64
    ensures sites { result ≡ limits.sites_of (piece_part piece.entry) }
    ensures one { result ≤ 1 }
{
    match piece {
        Piece::Local(_) => 0,
        Piece::Stmt(stmt) => u64::from(is_site(&stmt.form)),
    }
}

fn sites_in<'a>(pieces: &[Piece<'a>]) -> u64
    ensures { result ≡ limits.site_count (map piece_part pieces.now) }
{
    let mut count = 0;
    for piece in pieces {
        count += sites_of(*piece);
    }
    count
}

/// How many call sites a procedure has.
pub fn site_count(own: &ProcNames<'_>) -> u64
    ensures { result ≡ limits.site_count (parts_of own.now.body) }
{
    sites_in(own.pieces())
}
