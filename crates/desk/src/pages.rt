// Pages: the length of a page goes behind the others.
ghost use Rattle.std.specs.Prelude.{◌≡◌, ◌≤◌, ◌<◌};
ghost use Rattle.desk.specs.Desks.{page_limit, page_letters, held, with_page, without_page};

use crate::Desk;

// Puts one more page on the desk, of n letters.
pub(crate) fn put_on(desk: &mut Desk, n: usize)
    requires { (desk.old.count < page_limit) × (n ≤ page_letters) }
    ensures { desk.new ≡ with_page desk.old n }
{
    desk.lengths[usize::from(desk.count)] = n as u8;
    desk.count += 1;
}

// Takes the last page put off the desk, and answers how many of its letters are left. Its length stays where it is: it is not looked at any more.
pub(crate) fn take_off(desk: &mut Desk, letters: usize) -> usize
    requires { (1 ≤ desk.old.count) × (desk.old.count ≤ page_limit) × (letters ≡ held desk.old) }
    ensures { (desk.new ≡ without_page desk.old) × (result ≡ held (without_page desk.old)) }
{
    desk.count -= 1;
    let at = usize::from(desk.count);
    letters - usize::from(desk.lengths[at])
}
