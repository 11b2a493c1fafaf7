//! What becomes of the functions, written by hand.

pub(crate) const AWAITS_SEVEN: &str = "func of 5
^
func.call to 0 1
async.runtime.await 1
async.runtime.is_error 1 to 2
cf.cond_br 2 ^2 ^1
^
async.runtime.load 1 to 3
func.return 3
^
arith.constant to 4
aio.fail 4
";

pub(crate) const SEVEN: &str = "func of 6
^
async.runtime.create to 0
async.runtime.create to 1
async.coro.id to 2
async.coro.begin 2 to 3
async.coro.save 3 to 4
async.runtime.resume 3
async.coro.suspend 4 ^3 ^1 ^2
^
arith.constant to 5
async.runtime.store 5 1
async.runtime.set_available 1
async.runtime.set_available 0
cf.br ^2
^
async.coro.free 2 3
async.coro.end 3
aio.finish
^
async.coro.end 3
func.return 0 1
";

pub(crate) const AWAITS_POSITIVE: &str = "func of 8
^
arith.constant to 0
func.call to 1 2
func.call 1 2 0 to 3 4
async.runtime.await 4
async.runtime.is_error 4 to 5
cf.cond_br 5 ^2 ^1
^
async.runtime.load 4 to 6
func.return 6
^
arith.constant to 7
aio.fail 7
";

pub(crate) const POSITIVE: &str = "func of 14 0 1 2
^
async.runtime.create to 3
async.runtime.create to 4
async.coro.id to 5
async.coro.begin 5 to 6
async.coro.save 6 to 7
async.runtime.resume 6
async.coro.suspend 7 ^9 ^1 ^8
^
async.coro.save 6 to 8
async.runtime.await_and_resume 0 6
async.coro.suspend 8 ^9 ^2 ^8
^
async.runtime.is_error 0 to 9
cf.cond_br 9 ^10 ^3
^
async.coro.save 6 to 10
async.runtime.await_and_resume 1 6
async.coro.suspend 10 ^9 ^4 ^8
^
async.runtime.is_error 1 to 11
cf.cond_br 11 ^11 ^5
^
async.runtime.load 1 to 12
arith.cmpi 12 2 to 13
cf.cond_br 13 ^6 ^12
^
async.runtime.store 12 4
async.runtime.set_available 4
async.runtime.set_available 3
cf.br ^8
^
async.runtime.set_error 4
async.runtime.set_error 3
cf.br ^8
^
async.coro.free 5 6
async.coro.end 6
aio.finish
^
async.coro.end 6
func.return 3 4
^
cf.br ^7
^
cf.br ^7
^
cf.br ^7
";

pub(crate) const AWAITS_ALL: &str = "func of 6
^
arith.constant to 0
async.runtime.create_group 0 to 1
func.call 1 to 2
async.runtime.add_to_group 2 1 to 3
async.runtime.await 1
async.runtime.is_error 1 to 4
cf.cond_br 4 ^2 ^1
^
func.return
^
arith.constant to 5
aio.fail 5
";

pub(crate) const AWAITS_GROUP: &str = "func of 8 0
^
async.runtime.create to 1
async.coro.id to 2
async.coro.begin 2 to 3
async.coro.save 3 to 4
async.runtime.resume 3
async.coro.suspend 4 ^7 ^1 ^6
^
async.coro.save 3 to 5
async.runtime.await_and_resume 0 3
async.coro.suspend 5 ^7 ^2 ^6
^
async.runtime.is_error 0 to 6
cf.cond_br 6 ^9 ^3
^
aio.call ^4 ^8
^
async.runtime.set_available 1
cf.br ^6
^
async.runtime.set_error 1
cf.br ^6
^
async.coro.free 2 3
async.coro.end 3
aio.finish
^
async.coro.end 3
func.return 1
^ 7
cf.br ^5
^
cf.br ^5
";

pub(crate) const AWAITS_IN_TURN: &str = "func of 13 0 1
^
async.runtime.create to 2
async.runtime.create to 3
async.coro.id to 4
async.coro.begin 4 to 5
async.coro.save 5 to 6
async.runtime.resume 5
async.coro.suspend 6 ^9 ^1 ^8
^
arith.constant to 7
cf.br ^2 7
^ 8
arith.cmpi 8 1 to 9
cf.cond_br 9 ^3 ^6
^
async.coro.save 5 to 10
async.runtime.await_and_resume 0 5
async.coro.suspend 10 ^9 ^4 ^8
^
async.runtime.is_error 0 to 11
cf.cond_br 11 ^10 ^5
^
arith.addi 8 7 to 12
cf.br ^2 12
^
async.runtime.store 8 3
async.runtime.set_available 3
async.runtime.set_available 2
cf.br ^8
^
async.runtime.set_error 3
async.runtime.set_error 2
cf.br ^8
^
async.coro.free 4 5
async.coro.end 5
aio.finish
^
async.coro.end 5
func.return 2 3
^
cf.br ^7
";
