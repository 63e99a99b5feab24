// What the routines do, as contracts.

ghost use Rattle.machine_routines.specs.EqualLaw.{EqualLaw};
ghost use Rattle.machine_routines.specs.Sizes.{EqualIsShort, FindIsShort};
ghost use Rattle.machine_routines.specs.FindLaw.{FindLaw, FindMemberLaw};

/// The routine that compares two values of a type says whether they are equal, or the heap is exhausted.
pub fn equal()
    ensures { EqualLaw }
{
    ir_code::law::begins();
    ir_code::law::control();
    ir_code::law::memory();
    ir_code::law::arithmetic();
}

/// A jump table or a search goes to the place of a tag: of any, or with no tests of those that are there.
pub fn find()
    ensures any { FindLaw }
    ensures member { FindMemberLaw }
{
    ir_code::law::begins();
    ir_code::law::control();
    ir_code::law::memory();
    ir_code::law::arithmetic();
}

/// The code of equality is at most eleven instructions a part of its types, that of going to a member at most four a member.
pub fn short()
    ensures equal { EqualIsShort }
    ensures find { FindIsShort }
{}
